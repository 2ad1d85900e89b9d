//! Laws of the definitions: functions that do nothing, each with its statement as its contract.

ghost use Rattle.std.specs.Prelude.{◌≡◌};
ghost use Rattle.quil_tree.specs.Expression.{Expression, postfix};

/// Steps are those of one tree alone.
#[tactic(auto, using(crate::proofs::Postfix::same_tree))]
pub fn one_tree()
    ensures { (t u : Expression) → postfix t ≡ postfix u → t ≡ u }
{}
