//! Laws of the definitions: functions that do nothing but call other laws, each with its statement as its contract.

ghost use Rattle.std.specs.Prelude.{◌≡◌, List, ℕ, Result};
ghost use Rattle.quil_code.specs.Program.{Program};
ghost use Rattle.quil_code.specs.declared.load_fault.LoadFault as fault;
ghost use Rattle.quil_link.specs.Load.{IsLoaded};

use quil_parse::one_tree;

/// A text is loaded as one program, or refused with one fault, and never both.
pub fn one_program()
    ensures { (text : List ℕ) (r s : Result Program fault.LoadFault) → IsLoaded text r → IsLoaded text s → r ≡ s }
{
    one_tree();
}
