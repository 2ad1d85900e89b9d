//! Examples worked by hand, which the check computes.

ghost use Rattle.std.specs.Prelude.{◌≡◌, pos, negsuc, Ok, Err};
ghost use Rattle.qvm_ring.specs.Ring.{unit, root_two};
ghost use Rattle.qvm_ring.specs.Examples.{element};
ghost use Rattle.quil_value.specs.declared.lack.Lack.TheVariants.{NotExact, ZeroDivisor};
ghost use Rattle.quil_value.specs.Exact.{Ring, Rational, Pi, ImagPi, sum_of, difference_of, product_of, quotient_of};
ghost use Rattle.quil_value.specs.Examples.{third, half_turn, quarter_turn, imaginary, whole};

/// Sums and differences.
#[tactic(auto, unfolding(crate::specs::Exact::exponent_of_two, quil_number::specs::Divisor::common_divisor, quil_number::specs::Fraction::lowest))]
pub fn sums_by_hand()
    // 1/3 + 1/3 + 1/3 is the ring number 1.
    ensures thirds { sum_of third third ≡ Ok (Rational (record { p = pos 2; q = 3 })) }
    ensures whole { sum_of (Rational (record { p = pos 2; q = 3 })) third ≡ Ok (whole 1) }
    // 1/√2 + 1/√2 is √2.
    ensures roots { sum_of (Ring unit 1) (Ring unit 1) ≡ Ok (Ring root_two 0) }
    ensures angles { sum_of quarter_turn quarter_turn ≡ Ok half_turn }
    ensures none { difference_of half_turn half_turn ≡ Ok (whole 0) }
    ensures nought { sum_of (whole 0) quarter_turn ≡ Ok quarter_turn }
    ensures apart { sum_of (whole 1) quarter_turn ≡ Err NotExact }
    ensures mixed { sum_of third (Ring imaginary 0) ≡ Err NotExact }
{}

/// Products and quotients.
#[tactic(auto, unfolding(crate::specs::Exact::exponent_of_two, quil_number::specs::Divisor::common_divisor, quil_number::specs::Fraction::lowest))]
pub fn products_by_hand()
    ensures again { product_of third (whole 3) ≡ Ok (whole 1) }
    ensures angle { product_of (whole 2) quarter_turn ≡ Ok half_turn }
    // i times π/2 is iπ/2, and i times that is -π/2.
    ensures imaginary { product_of (Ring imaginary 0) quarter_turn ≡ Ok (ImagPi (record { p = pos 1; q = 2 })) }
    ensures back { product_of (Ring imaginary 0) (ImagPi (record { p = pos 1; q = 2 })) ≡ Ok (Pi (record { p = negsuc 0; q = 2 })) }
    ensures square { product_of quarter_turn quarter_turn ≡ Err NotExact }
    ensures third { quotient_of (whole 1) (whole 3) ≡ Ok third }
    ensures half { quotient_of (whole 1) (whole 2) ≡ Ok (Ring unit 2) }
    // 2/(1 + i) is 1 - i.
    ensures ring { quotient_of (whole 2) (Ring (element (pos 1) (pos 0) (pos 1) (pos 0)) 0) ≡ Ok (Ring (element (pos 1) (pos 0) (negsuc 0) (pos 0)) 0) }
    ensures odd { quotient_of (whole 1) (Ring (element (pos 2) (pos 0) (pos 1) (pos 0)) 0) ≡ Err NotExact }
    ensures ratio { quotient_of half_turn quarter_turn ≡ Ok (whole 2) }
    ensures zero { quotient_of half_turn (whole 0) ≡ Err ZeroDivisor }
{}
