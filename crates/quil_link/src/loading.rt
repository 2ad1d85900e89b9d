//! The program of a text.

ghost use Rattle.std.specs.Prelude.{◌≡◌, ◌≢◌, ◌⊎◌, ◌<◌, length, List, ℕ, Result, Ok, Err, IfOk, IfErr};
ghost use Rattle.quil_grammar.specs.declared.parse.TheConstants.{MOST_BYTES};
ghost use Rattle.quil_code.specs.Program.{Program};
ghost use Rattle.quil_code.specs.declared.load_fault.LoadFault as fault;
ghost use Rattle.quil_code.specs.declared.load_fault.LoadFault.TheVariants.{OutOfMemory, TextTooLong};
ghost use Rattle.quil_link.specs.Passes.{Loads};
ghost use Rattle.quil_link.specs.Load.{load_tree, of_reading, IsLoaded};

use crate::count::check_counts;
use crate::gate::check_built;
use crate::layout::layout_of;
use crate::line::linked_items;
use crate::numbering::numbered;
use quil_code::{Code, LoadFault};
use quil_memory::Name;
use quil_parse::{ReadFault, parse};
use quil_tree::Item;
use std::alloc::Global;

// The refusal of a text that is no program.
fn of_reading(alloc: Global, fault: ReadFault) -> LoadFault
    ensures value { (result ≡ of_reading fault) ⊎ (result ≡ OutOfMemory) }
    ensures too_long { (n : ℕ) → fault ≡ ReadFault.TextTooLong n → result ≡ TextTooLong n }
{
    match fault {
        ReadFault::NumberTooWide { line, column } => LoadFault::NumberTooWide { line, column },
        ReadFault::BadToken { line, column } => LoadFault::BadToken { line, column },
        ReadFault::Unexpected { line, column } => LoadFault::Unexpected { line, column },
        ReadFault::LeftOut { line, word } => match Name::new(alloc, word.as_bytes()) {
            Ok(word) => LoadFault::LeftOut { line, word },
            Err(_) => LoadFault::OutOfMemory,
        },
        ReadFault::TextTooLong { length } => LoadFault::TextTooLong { length },
        ReadFault::OutOfMemory => LoadFault::OutOfMemory,
    }
}

// The program of a tree.
fn load_tree(alloc: Global, items: &[Item]) -> Result<Code, LoadFault>
    ensures { Loads result (load_tree items.now) }
{
    check_built(items)?;
    let layout = layout_of(alloc, items)?;
    check_counts(items)?;
    let lines = linked_items(alloc, &layout, items)?;
    numbered(alloc, layout, lines)
}

/// The program of a Quil text of the part that is built: declarations, the gates X, H and CNOT, MEASURE, RESET, WAIT, NOP, HALT,
/// pragmas, and classical instructions.
///
/// A text is refused with the fault of the first pass that finds one, and in a pass with the first one in the order of the
/// text: how it is read (TextTooLong, NumberTooWide, BadToken, Unexpected, LeftOut); NotBuilt; its regions (Redeclared,
/// UnknownRegion, ShareOutside, Misaligned, MemoryTooLarge); its counts (TooManyInstructions at the 65,537th statement, Arity
/// where a gate hasn't its number of qubits); its lines, each with its addresses from left to right (UnknownRegion, OutOfRange),
/// then its types (TypeClash), then RepeatedQubit, then an operand without a value, at the place of the part that has none
/// (NotExact, ZeroDivisor, NumberTooWide); more than 16 different qubits (TooManyQubits). Any text that isn't too long may be
/// refused for want of memory.
pub fn load(alloc: Global, text: &[u8]) -> Result<Code, LoadFault>
    // What is given is the program of the text.
    ensures found { IfOk result (λ code. IsLoaded text.now (Ok code)) }

    // A text is refused with its first fault.
    ensures refused { IfErr result (λ f. f ≢ OutOfMemory → IsLoaded text.now (Err f)) }

    // Nothing else is given but want of memory.
    ensures only { (r : Result Program fault.LoadFault) → IsLoaded text.now r → Loads result r }

    // A text that is too long takes no memory.
    ensures too_long { MOST_BYTES < length text.now → result ≡ Err (TextTooLong (length text.now)) }
{
    match parse(alloc, text) {
        Ok(tree) => load_tree(alloc, tree.as_slice()),
        Err(fault) => Err(of_reading(alloc, fault)),
    }
}
