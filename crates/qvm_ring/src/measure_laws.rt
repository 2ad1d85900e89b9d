//! Laws of norms and of measurements.

ghost use Rattle.std.specs.Prelude.{◌≡◌, ◌≢◌, ◌^◌, ◌<◌, ℕ, true, false, pos, []};
ghost use Rattle.qvm_ring.specs.Ring.{Element, norm_whole, norm_root, is_zero, is_positive};
ghost use Rattle.qvm_ring.specs.Ray.{Ray, IsFiniteMap};
ghost use Rattle.qvm_ring.specs.Measure.{norm_of, kept, outcome};

/// The norm of an amplitude that isn't 0 is positive, and so is that of a map that isn't empty.
#[tactic(auto, using(crate::proofs::Norms::amplitude_positive, crate::proofs::Norms::ray_positive))]
pub fn norms_are_positive()
    ensures amplitude { (z : Element) → is_zero z ≡ false → is_positive (pos (norm_whole z)) (norm_root z) ≡ true }
    ensures ray { (ray : Ray) (low high : ℕ) → IsFiniteMap low high ray → ray ≢ [] → is_positive (pos (norm_of ray).u) (norm_of ray).v ≡ true }
{}

/// The part that an outcome keeps is never empty, whatever the word of 32 bits.
#[tactic(auto, using(crate::proofs::Measures::one_keeps_some, crate::proofs::Measures::zero_keeps_some))]
pub fn outcomes_keep_some()
    ensures one { (ray : Ray) (high qubit word : ℕ) → IsFiniteMap 0 high ray → ray ≢ [] → outcome ray qubit word ≡ true → kept ray qubit 1 ≢ [] }
    ensures zero { (ray : Ray) (high qubit word : ℕ) → IsFiniteMap 0 high ray → ray ≢ [] → word < 2 ^ 32 → outcome ray qubit word ≡ false → kept ray qubit 0 ≢ [] }
{}
