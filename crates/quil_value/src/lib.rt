//! Exact values of expressions and their arithmetic.
//!
//! `specs/Exact.antt` has the four kinds of numbers, each in one form, and their sums, products and quotients; `specs/Table.antt`
//! has powers, roots, signs and functions. What an expression is worked out to stands in `specs/Worked.antt`: a value, or a sum of
//! memory cells (`specs/Sums.antt`), or its first fault.
#![tactic(auto)]

mod angle;
mod angle_sum;
mod division_laws;
mod evaluation;
#[cfg(test)]
mod evaluation_tests;
mod examples;
mod form_laws;
mod fraction_laws;
mod lack;
mod laws;
mod literal;
mod low_end;
mod odd_multiple;
mod parts;
mod quotient_laws;
#[cfg(test)]
mod quotient_tests;
mod ratio_arithmetic;
mod rational_quotient;
mod real_numbers;
mod references;
mod ring_number;
mod ring_product;
mod ring_quotient;
mod settle;
mod stack;
#[cfg(test)]
mod steps_for_tests;
mod stop;
mod sum_fault;
mod sums;
mod table;
mod terms;
#[cfg(test)]
mod tests;
mod value;
mod value_opposite;
mod value_product;
mod value_quotient;
mod value_ratio;
mod value_root;
mod value_sum;
#[cfg(test)]
mod value_tests;
mod whole_power;
mod work_fault;
mod worked;

pub use angle::{cis, cos, exp, sin};
pub use angle_sum::{AngleSum, Count};
pub use division_laws::products_of_quotients;
pub use evaluation::{Argument, eval, work_out};
pub use examples::{products_by_hand, sums_by_hand};
pub use form_laws::{common_divisors, least_powers, powers_of_two};
pub use fraction_laws::fractions_in_lowest_terms;
pub use lack::Lack;
pub use laws::cofactors;
pub use literal::{imaginary, number};
pub use low_end::{Division, divided};
pub use quotient_laws::{equal_fractions, scaled_fractions, settled_fractions, settled_values};
pub use stop::Stop;
pub use sum_fault::SumFault;
pub use sums::{Cell, CellSum, Term};
pub use value::{Kind, RingNumber, Value};
pub use value_opposite::opposite;
pub use value_product::product;
pub use value_quotient::quotient;
pub use value_root::square_root;
pub use value_sum::{difference, sum};
pub use whole_power::power;
pub use work_fault::WorkFault;
pub use worked::Worked;
