//! What the definitions mean.

ghost use Rattle.std.specs.Prelude.{◌≡◌, ◌<◌, false};
ghost use Rattle.qvm_ring.specs.Ring.{Element, times, whole_number, is_zero};
ghost use Rattle.quil_value.specs.Exact.{cofactor, whole_norm};

/// A number that isn't 0, times its cofactor, is a whole number that isn't 0.
#[tactic(auto, using(crate::proofs::WholeNorms::times_cofactor, crate::proofs::WholeNorms::whole_norm_positive))]
pub fn cofactors()
    ensures product { (y : Element) → times y (cofactor y) ≡ whole_number (whole_norm y) }
    ensures some { (y : Element) → is_zero y ≡ false → 0 < whole_norm y }
{}
