//! The text of a tree.
//!
//! Each function writes one form behind a text; the text of a form is a definition of the same name in `specs/Printed.antt`.

ghost use Rattle.std.specs.Prelude.{◌≡◌, ◌++◌, codes, IfOk, OnOk};
ghost use Rattle.std.specs.List.{flat_map};
ghost use Rattle.quil_tree.specs.Printed.{item_text, printed};

mod backwards;
mod declaration;
mod definition;
mod expression;
mod gate;
mod lists;
mod operand;
mod pragma;
mod statement;
mod tasks;
mod word;

use crate::item::{Item, Tree};
use crate::names::NameSet;
use crate::printer::declaration::push_declaration;
use crate::printer::definition::{push_circuit_definition, push_gate_definition};
use crate::printer::statement::push_statement;
use crate::text::Text;
use std::alloc::{AllocError, Global};

/// The text of a tree: each statement on a line of its own, with a line feed, and each row or statement of a body on one
/// more, behind four blanks.
pub fn print(alloc: Global, tree: &Tree) -> Result<Text, AllocError>
    ensures { IfOk result (λ text. text ≡ printed tree.now) }
{
    let mut bytes = Vec::new(alloc);
    push_items(&mut bytes, alloc, tree.as_slice())?;
    Ok(Text::from_bytes(bytes))
}

fn push_items(text: &mut Vec<u8>, alloc: Global, mut items: &[Item]) -> Result<(), AllocError>
    ensures { OnOk result (text.new.items ≡ text.old.items ++ flat_map item_text items.entry.now) }
{
    while let [item, rest @ ..] = items {
        push_item(text, alloc, item)?;
        items = rest;
    }
    Ok(())
}

// The lines of one item, each with its line feed. A statement of the top level has no parameters.
fn push_item(text: &mut Vec<u8>, alloc: Global, item: &Item) -> Result<(), AllocError>
    ensures { OnOk result (text.new.items ≡ text.old.items ++ item_text item.now) }
{
    match item {
        Item::Declare(declaration) => {
            push_declaration(text, declaration)?;
            push_line_feed(text)
        }
        Item::DefGate(definition) => push_gate_definition(text, alloc, definition),
        Item::DefCircuit(definition) => push_circuit_definition(text, alloc, definition),
        Item::Plain(line) => {
            push_statement(text, alloc, &NameSet::new(alloc), &line.statement)?;
            push_line_feed(text)
        }
    }
}

fn push_line_feed(text: &mut Vec<u8>) -> Result<(), AllocError>
    ensures { OnOk result (text.new.items ≡ text.old.items ++ codes "\n") }
{
    text.extend_from_slice(b"\n")
}
