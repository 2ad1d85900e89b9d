//! Whole numbers and fractions, exactly: the greatest common divisor, lowest terms, square roots, and the value of a
//! decimal literal of any length.
//!
//! The definitions of `specs/` have no width. The functions work in 128 bits, and say for which numbers. `laws` has what
//! the definitions mean: the common divisor is the greatest one, equal fractions have one form in lowest terms, where
//! there is no root no number's square is the one asked for, and a literal's value is that of its parts as they are written.
#![tactic(auto)]

mod binary_end;
mod digits;
mod divisor;
mod fraction;
mod laws;
mod literal;
mod part;
mod places;
mod square_root;

pub use binary_end::has_binary_end;
pub use divisor::gcd;
pub use fraction::{Fraction, TooWide, lowest};
pub use laws::{
    divisors_of_both, lowest_terms, lowest_terms_are_unique, parts_of_literals, roots_of_fractions,
    roots_of_numbers,
};
pub use literal::decimal;
pub use square_root::{fraction_root, root};

#[cfg(test)]
mod tests;
