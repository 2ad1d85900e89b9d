//! Sums and differences of values.

ghost use Rattle.std.specs.Prelude.{◌≡◌, ◌*◌};
ghost use Rattle.qvm_ring.specs.Ring.{plus};
ghost use Rattle.qvm_ring.specs.Views.{wide_element};
ghost use Rattle.quil_value.specs.Exact.{scaled_by, settled, bounded, sum_of, difference_of};
ghost use Rattle.quil_value.specs.Views.{AreSmall};

use crate::lack::Lack;
use crate::parts::{Parts, parts_of, scaled};
use crate::ring_number::plus;
use crate::settle::settled;
use crate::value::{Value, is_zero};
use crate::value_opposite::opposite;

// The sum of parts with one power of π, over the product of their denominators.
fn parts_sum(x: Parts, y: Parts) -> Result<Value, Lack>
    requires left { AreSmall (wide_element x.num) x.den x.power }
    requires right { AreSmall (wide_element y.num) y.den y.power }
    ensures { result ≡ bounded (settled (plus (scaled_by y.den (wide_element x.num)) (scaled_by x.den (wide_element y.num))) (x.den * y.den) x.power) }
{
    let left = scaled(y.den as i128, x.num);
    let right = scaled(x.den as i128, y.num);
    settled(plus(left, right), x.den * y.den, x.power)
}

/// x + y. Values with different powers of π have a sum only where one of them is 0.
pub fn sum(x: &Value, y: &Value) -> Result<Value, Lack>
    ensures { result ≡ sum_of x.now y.now }
{
    let left = parts_of(x);
    let right = parts_of(y);
    if is_zero(left.num) {
        Ok(*y)
    } else if is_zero(right.num) {
        Ok(*x)
    } else if left.power == right.power {
        parts_sum(left, right)
    } else {
        Err(Lack::NotExact)
    }
}

/// x - y, like the sum of x and -y.
pub fn difference(x: &Value, y: &Value) -> Result<Value, Lack>
    ensures { result ≡ difference_of x.now y.now }
{
    sum(x, &opposite(y))
}
