//! Square roots.

ghost use Rattle.std.specs.Prelude.{◌≡◌};
ghost use Rattle.quil_value.specs.Table.{square_root_of};

use crate::lack::Lack;
use crate::real_numbers::real_number;
use crate::ring_number::rooted;
use crate::settle::settled;
use crate::value::Value;
use crate::value_ratio::ratio;
use quil_number::{fraction_root, lowest};

/// The square root from 0 on: a rational number, or √2 times one where that is in the ring.
pub fn square_root(x: &Value) -> Result<Value, Lack>
    ensures { result ≡ square_root_of x.now }
{
    let Some(x) = ratio(x) else {
        return Err(Lack::NotExact);
    };
    if let Some(r) = fraction_root(x) {
        return settled(real_number(r.p), r.q, 0);
    }
    let half = lowest(x.p, 2 * x.q);
    match fraction_root(half) {
        Some(r) => settled(rooted(real_number(r.p)), r.q, 0),
        None => Err(Lack::NotExact),
    }
}
