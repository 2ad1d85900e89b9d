//! Laws of the reader and the printer over whole texts: functions that do nothing, each with its statement as its contract.

ghost use Rattle.std.specs.Prelude.{◌≡◌, ◌≢◌, ◌≤◌, ◌⊎◌, ℕ, List, length};
ghost use Rattle.quil_tree.specs.declared.item.Item.{Item};
ghost use Rattle.quil_tree.specs.Printed.{printed};
ghost use Rattle.quil_grammar.specs.declared.parse.TheConstants.{MOST_BYTES};
ghost use Rattle.quil_grammar.specs.declared.fault.ReadFault as fault;
ghost use Rattle.quil_grammar.specs.declared.fault.ReadFault.TheVariants.{OutOfMemory};
ghost use Rattle.quil_parse.specs.Program.{IsTreeOf, IsFaultOf};
ghost use Rattle.quil_round_trip.specs.Unplaced.{bare_tree};

/// What `print` writes of a tree that `parse` gave is, if it isn't too long, a text of a tree, and of the same one up to places.
/// So `parse` gives that tree again, or memory runs out.
pub fn printed_is_read_again()
    ensures again { (text : List ℕ) (tree : List Item) → IsTreeOf text tree → length (printed tree) ≤ MOST_BYTES → ((again : List Item) × IsTreeOf (printed tree) again × (bare_tree again ≡ bare_tree tree)) }
    ensures only { (text : List ℕ) (tree again : List Item) → IsTreeOf text tree → IsTreeOf (printed tree) again → bare_tree again ≡ bare_tree tree }
{}

/// Each text is a program, or has a fault beside want of memory.
pub fn tree_or_fault()
    ensures { (text : List ℕ) → ((tree : List Item) × IsTreeOf text tree) ⊎ ((f : fault.ReadFault) × (f ≢ OutOfMemory) × IsFaultOf text f) }
{}
