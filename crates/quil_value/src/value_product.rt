//! Products of values.

ghost use Rattle.std.specs.Prelude.{◌≡◌};
ghost use Rattle.quil_value.specs.Exact.{product_of};

use crate::lack::Lack;
use crate::parts::{lone_product, parts_of};
use crate::ring_product::ring_product;
use crate::value::{Kind, Value};

/// x · y. Neither times π has a product with another such value: π² is none of the four kinds of numbers.
pub fn product(x: &Value, y: &Value) -> Result<Value, Lack>
    ensures { result ≡ product_of x.now y.now }
{
    match (x.kind(), y.kind()) {
        (Kind::Ring(x), Kind::Ring(y)) => ring_product(x, y),
        (Kind::Ring(_), _) => lone_product(parts_of(y), parts_of(x)),
        _ => lone_product(parts_of(x), parts_of(y)),
    }
}
