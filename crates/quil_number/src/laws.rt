//! What the definitions mean.

ghost use Rattle.std.specs.Prelude.{◌≡◌, ◌≢◌, ◌<◌, ◌*◌, ◌*ℤ◌, ◌-ℤ◌, ℕ, ℤ, pos, neg_ℤ, Some, None, true, List, [], ◌∷◌, ◌++◌, length};
ghost use Rattle.std.specs.Char.{is_ascii_digit};
ghost use Rattle.std.specs.Int.{IsGcd};
ghost use Rattle.std.specs.List.{list_all};
ghost use Rattle.quil_number.specs.Decimal.{digits, number, scaled, decimal_value};
ghost use Rattle.quil_number.specs.Divisor.{common_divisor};
ghost use Rattle.quil_number.specs.Fraction.{lowest, IsLowest};
ghost use Rattle.quil_number.specs.Root.{root, fraction_root};

/// The common divisor divides both numbers, and each number that divides both divides it.
pub fn divisors_of_both()
    ensures { (a b : ℕ) → IsGcd a b (common_divisor a b) }
{}

/// Lowest terms are the same fraction, and no number above 1 divides both of them.
pub fn lowest_terms()
    ensures { (p : ℤ) (q : ℕ) → 0 < q → IsLowest p q (lowest p q) }
{}

/// Equal fractions have the same lowest terms.
#[tactic(auto, using(crate::proofs::Meanings::same_lowest))]
pub fn lowest_terms_are_unique()
    ensures { (p : ℤ) (q : ℕ) (p' : ℤ) (q' : ℕ) → 0 < q → 0 < q' → p *ℤ pos q' ≡ p' *ℤ pos q → lowest p q ≡ lowest p' q' }
{}

/// A root has the number as its square, and where there is none, no number has.
#[tactic(auto, using(crate::proofs::Roots::root_squared, crate::proofs::Roots::no_root))]
pub fn roots_of_numbers()
    ensures found { (n r : ℕ) → root n ≡ Some r → r * r ≡ n }
    ensures none { (n r : ℕ) → root n ≡ None → r * r ≢ n }
{}

/// Where a fraction in lowest terms has no root, no fraction a/b has it as its square.
#[tactic(auto, using(crate::proofs::Meanings::no_fraction_root))]
pub fn roots_of_fractions()
    ensures { (p q a b : ℕ) → IsGcd p q 1 → fraction_root (pos p) q ≡ None → 0 < b → a * a * q ≢ p * (b * b) }
{}

/// A literal of digits, a point (46), digits, an `e` (101), a sign (43 or 45) and digits is the number of its digits, times
/// ten to its exponent less the count of its digits behind the point. What stands behind it begins with no digit.
#[tactic(auto, using(crate::proofs::Literals::raised_literal, crate::proofs::Literals::lowered_literal))]
pub fn parts_of_literals()
    ensures plus { (ws fs es behind : List ℕ) → list_all is_ascii_digit ws ≡ true → list_all is_ascii_digit fs ≡ true → list_all is_ascii_digit es ≡ true → digits behind ≡ [] → decimal_value (ws ++ 46 ∷ fs ++ 101 ∷ 43 ∷ es ++ behind) ≡ scaled (number (ws ++ fs)) (pos (number es) -ℤ pos (length fs)) }
    ensures minus { (ws fs es behind : List ℕ) → list_all is_ascii_digit ws ≡ true → list_all is_ascii_digit fs ≡ true → list_all is_ascii_digit es ≡ true → digits behind ≡ [] → decimal_value (ws ++ 46 ∷ fs ++ 101 ∷ 45 ∷ es ++ behind) ≡ scaled (number (ws ++ fs)) (neg_ℤ (pos (number es)) -ℤ pos (length fs)) }
{}
