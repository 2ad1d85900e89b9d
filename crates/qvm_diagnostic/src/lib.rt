//! What refusals and faults say: a code, a name, and details under keys. Each fault type has one function to it, and every text
//! of a refusal is written from it.
#![tactic(auto)]

mod detail;
mod diagnostic;
#[cfg(test)]
mod tests;

pub use detail::Detail;
pub use diagnostic::Diagnostic;
