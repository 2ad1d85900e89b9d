//! What exact quotients are.

ghost use Rattle.std.specs.Prelude.{◌≡◌, ◌*◌, ◌<◌, ℕ, ℤ, Ok, false};
ghost use Rattle.qvm_ring.specs.Ring.{Element, is_zero};
ghost use Rattle.quil_value.specs.Exact.{Exact, numerator, denominator, power_of_pi, scaled_by, settled};
ghost use Rattle.quil_value.specs.Forms.{IsForm};

/// The value of a fraction z/n · π^k is that of (c·z)/(c·n) · π^k.
#[tactic(auto, using(crate::proofs::Settled::settled_scaled))]
pub fn scaled_fractions()
    ensures { (z : Element) (n c : ℕ) (k : ℤ) → 0 < c → 0 < n → settled (scaled_by c z) (c * n) k ≡ settled z n k }
{}

/// A value in its one form is what its numerator, its denominator and its power of π make.
#[tactic(auto, using(crate::proofs::Identity::settled_self))]
pub fn settled_values()
    ensures { (x : Exact) → IsForm x → settled (numerator x) (denominator x) (power_of_pi x) ≡ Ok x }
{}

/// What is settled for a fraction z/n · π^k is that number.
#[tactic(auto, using(crate::proofs::Quotients::settled_number_same, crate::proofs::Quotients::settled_power_same))]
pub fn settled_fractions()
    ensures number { (z : Element) (n : ℕ) (k : ℤ) (w : Exact) → settled z n k ≡ Ok w → 0 < n → scaled_by n (numerator w) ≡ scaled_by (denominator w) z }
    ensures power { (z : Element) (n : ℕ) (k : ℤ) (w : Exact) → settled z n k ≡ Ok w → 0 < n → is_zero z ≡ false → power_of_pi w ≡ k }
{}

/// Equal fractions have one value: z/n is w/m where m·z is n·w.
#[tactic(auto, using(crate::proofs::Settled::same_settled))]
pub fn equal_fractions()
    ensures { (z : Element) (n : ℕ) (w : Element) (m : ℕ) (k : ℤ) → 0 < n → 0 < m → scaled_by m z ≡ scaled_by n w → settled z n k ≡ settled w m k }
{}
