//! Why an operation has no value.

/// Why an operation has no value.
#[derive(Clone, Copy, Debug, PartialEq, Eq)]
pub enum Lack {
    /// The result is none of the four kinds of numbers.
    NotExact,
    /// The divisor is 0.
    ZeroDivisor,
    /// A number of the result is above the bounds of a value.
    NumberTooWide,
}
