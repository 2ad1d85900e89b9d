//! Norms u + v√2, and that of one amplitude.

ghost use Rattle.std.specs.Prelude.{◌≡◌, ◌+◌, ◌^◌, ◌<◌, ◌≤◌, ◌*◌, unsigned_abs, nat_abs, pos, ◌≤ℤ◌, ◌+ℤ◌, ◌-ℤ◌, ◌*ℤ◌};
ghost use Rattle.qvm_ring.specs.Ring.{norm_whole, norm_root};
ghost use Rattle.qvm_ring.specs.Ray.{weight_limit};
ghost use Rattle.qvm_ring.specs.Views.{element_of, IsBelow};
ghost use Rattle.qvm_ring.specs.NormViews.{norm_seen, IsNorm};

use crate::amp::Amp;
use crate::number::Number;

/// The number u + v√2.
#[derive(Clone, Copy, Debug, PartialEq, Eq)]
pub struct Norm {
    pub u: i128,
    pub v: i128,
}

impl Norm {
    pub(crate) const ZERO: Norm = Norm { u: 0, v: 0 };

    /// Adds |amplitude|².
    pub(crate) fn add(&mut self, amplitude: Amp)
        requires so_far { IsNorm self.old }
        requires room { (norm_seen self.old).u + norm_whole (element_of amplitude) ≤ weight_limit }
        ensures value { norm_seen self.new ≡ record { u = (norm_seen self.old).u + norm_whole (element_of amplitude); v = self.old.v +ℤ norm_root (element_of amplitude) } }
        ensures bounds { IsNorm self.new }
    {
        if amplitude.is_zero() {
            return;
        }
        self.u += amplitude.weight() as i128;
        self.v += root(amplitude);
    }
}

fn product(x: i64, y: i64) -> i128
    requires left { unsigned_abs x < 2 ^ 62 }
    requires right { unsigned_abs y < 2 ^ 62 }
    ensures value { result ≡ x *ℤ y }
    ensures bound { unsigned_abs result < 2 ^ 124 }
{
    i128::from(x) * i128::from(y)
}

fn sum(x: i128, y: i128) -> i128
    requires left { unsigned_abs x < 2 ^ 126 }
    requires right { unsigned_abs y < 2 ^ 126 }
    ensures { result ≡ x +ℤ y }
{
    x + y
}

fn difference(x: i128, y: i128) -> i128
    requires left { unsigned_abs x < 2 ^ 126 }
    requires right { unsigned_abs y < 2 ^ 126 }
    ensures { result ≡ x -ℤ y }
{
    x - y
}

// The v of the amplitude's norm: ab + bc + cd - da.
fn root(z: Amp) -> i128
    requires { IsBelow (2 ^ 62) (element_of z) }
    ensures value { result ≡ norm_root (element_of z) }
    ensures bound { nat_abs result ≤ norm_whole (element_of z) }
{
    let first = sum(product(z.a, z.b), product(z.b, z.c));
    let second = difference(product(z.c, z.d), product(z.d, z.a));
    sum(first, second)
}
