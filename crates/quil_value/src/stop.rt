//! Where the evaluation of an expression stops.

use crate::lack::Lack;
use quil_tree::Place;

/// Why an expression has no value, and where.
#[derive(Clone, Copy, Debug, PartialEq, Eq)]
pub enum Stop {
    /// At a part of the expression, which begins at this place.
    At(Place, Lack),
    /// At the whole parameter: a part with memory references makes no rational sum.
    Whole(Lack),
}
