//! What a fraction in lowest terms is as a value.

ghost use Rattle.std.specs.Prelude.{◌≡◌, Some, None, Ok, ◌^◌, ◌*◌, ℕ, ℤ, nat_abs};
ghost use Rattle.std.specs.Int.{IsGcd};
ghost use Rattle.quil_number.specs.declared.fraction.Fraction.{Fraction};
ghost use Rattle.quil_number.specs.Fraction.{lowest};
ghost use Rattle.quil_value.specs.Exact.{Ring, Rational, least, content, exponent_of_two, settled_number};
ghost use Rattle.quil_value.specs.Forms.{IsInLowestTerms};
ghost use Rattle.quil_value.specs.RealNumbers.{real_number};

/// A fraction in lowest terms has nothing to divide out: no number above 1 divides it, and where its denominator is a power
/// of two it is a ring number in its least form.
#[tactic(auto, using(crate::proofs::Decimals::content_one, crate::proofs::Decimals::lowest_again, crate::proofs::Decimals::least_real, crate::proofs::Decimals::number_settled))]
pub fn fractions_in_lowest_terms()
    ensures content { (x : Fraction) → IsInLowestTerms x → content (real_number x.p) x.q ≡ 1 }
    ensures lowest { (x : Fraction) → IsInLowestTerms x → lowest x.p x.q ≡ x }
    ensures least { (p : ℤ) (k : ℕ) → IsGcd (nat_abs p) (2 ^ k) 1 → least (real_number p) (2 * k) ≡ Ring (real_number p) (2 * k) }
    ensures power { (x : Fraction) (k : ℕ) → IsInLowestTerms x → exponent_of_two x.q ≡ Some k → settled_number (real_number x.p) x.q ≡ Ok (Ring (real_number x.p) (2 * k)) }
    ensures other { (x : Fraction) → IsInLowestTerms x → exponent_of_two x.q ≡ None → settled_number (real_number x.p) x.q ≡ Ok (Rational x) }
{}
