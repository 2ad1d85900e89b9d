//! The one form of each value.

ghost use Rattle.std.specs.Prelude.{◌≡◌, ◌+◌, ◌*◌, ◌/◌, ◌^◌, ℕ, Some};
ghost use Rattle.qvm_ring.specs.Ring.{Element, times, whole_number};
ghost use Rattle.quil_value.specs.Exact.{Ring, least, root_power, exponent_of_two, content, divided_by};
ghost use Rattle.quil_value.specs.Forms.{IsLeast};

/// Equal ring numbers have one form: z/√2^m is w/√2^j with the least j where z·√2^j is w·√2^m.
#[tactic(auto, using(crate::proofs::Leasts::least_is))]
pub fn least_powers()
    ensures { (z : Element) (m : ℕ) (w : Element) (j : ℕ) → IsLeast w j → times z (root_power j) ≡ times w (root_power m) → least z m ≡ Ring w j }
{}

/// What the exponent of a power of two is.
#[tactic(auto, using(crate::proofs::Twos::exponent_is, crate::proofs::Twos::exponent_found))]
pub fn powers_of_two()
    ensures value { (k : ℕ) → exponent_of_two (2 ^ k) ≡ Some k }
    ensures found { (n k : ℕ) → exponent_of_two n ≡ Some k → 2 ^ k ≡ n }
{}

/// A fraction z/n over what divides both is the same fraction.
#[tactic(auto, using(crate::proofs::Contents::divided_times, crate::proofs::Contents::divided_whole))]
pub fn common_divisors()
    ensures numerator { (z : Element) (n : ℕ) → times (divided_by (content z n) z) (whole_number (content z n)) ≡ z }
    ensures denominator { (z : Element) (n : ℕ) → n / content z n * content z n ≡ n }
{}
