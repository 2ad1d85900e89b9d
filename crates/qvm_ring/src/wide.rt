//! Ring elements with coefficients of 128 bits.

ghost use Rattle.std.specs.Prelude.{◌≡◌, ℕ, ◌+◌, ◌^◌, ◌≤◌, ◌+ℤ◌, nat_abs};
ghost use Rattle.qvm_ring.specs.Ring.{plus};
ghost use Rattle.qvm_ring.specs.Views.{wide_element};
ghost use Rattle.qvm_ring.specs.Multiply.{IsWithin};

/// The number a + bω + cω² + dω³, as a product or a sum of amplitudes gives it before it is reduced.
#[derive(Clone, Copy, Debug, PartialEq, Eq)]
pub struct Wide {
    pub a: i128,
    pub b: i128,
    pub c: i128,
    pub d: i128,
}

impl Wide {
    /// The number 0.
    pub const ZERO: Wide = Wide {
        a: 0,
        b: 0,
        c: 0,
        d: 0,
    };
}

fn sum(x: i128, y: i128) -> i128
    requires left { nat_abs x ≤ 2 ^ 100 }
    requires right { nat_abs y ≤ 2 ^ 100 }
    ensures { result ≡ x +ℤ y }
{
    x + y
}

/// The sum of two numbers whose coefficients are at most 2^100 in absolute value.
#[tactic(auto, using(crate::proofs::ProductBounds::plus_within))]
pub fn plus(x: Wide, y: Wide) -> Wide
    requires left { IsWithin (2 ^ 100) (wide_element x) }
    requires right { IsWithin (2 ^ 100) (wide_element y) }
    ensures value { wide_element result ≡ plus (wide_element x) (wide_element y) }
    ensures bound { (m n : ℕ) → IsWithin m (wide_element x) → IsWithin n (wide_element y) → IsWithin (m + n) (wide_element result) }
{
    Wide {
        a: sum(x.a, y.a),
        b: sum(x.b, y.b),
        c: sum(x.c, y.c),
        d: sum(x.d, y.d),
    }
}
