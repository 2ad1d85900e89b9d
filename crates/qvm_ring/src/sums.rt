//! Norms of lists of amplitudes.

ghost use Rattle.std.specs.Prelude.{◌≡◌, ◌^◌, ◌<◌, ◌≤◌, length};
ghost use Rattle.qvm_ring.specs.Ray.{weight, weight_limit};
ghost use Rattle.qvm_ring.specs.Gate.{bit_of};
ghost use Rattle.qvm_ring.specs.Measure.{norm_of, kept};
ghost use Rattle.qvm_ring.specs.Views.{elements_of, map_of};
ghost use Rattle.qvm_ring.specs.NormViews.{norm_seen, IsNorm};

use crate::amp::Amp;
use crate::signed_norm::Norm;

/// The value of a qubit in a basis state.
pub(crate) fn bit_of(basis: usize, qubit: u32) -> u32
    requires state { basis < 2 ^ 16 }
    requires one { qubit < 16 }
    ensures { result ≡ bit_of basis qubit }
{
    basis as u32 / (1 << qubit) % 2
}

/// The sum of |amplitude|² over a list whose weight is at most 2^94.
pub fn norm(list: &[Amp]) -> Norm
    requires { weight (map_of (elements_of list.now)) ≤ weight_limit }
    ensures value { norm_seen result ≡ norm_of (map_of (elements_of list.now)) }
    ensures bounds { IsNorm result }
{
    let mut sum = Norm::ZERO;
    for amplitude in list {
        sum.add(*amplitude);
    }
    sum
}

/// The sum of |amplitude|² over the basis states in which the qubit is `bit`.
pub(crate) fn part_norm(list: &[Amp], qubit: u32, bit: u32) -> Norm
    requires bound { weight (map_of (elements_of list.now)) ≤ weight_limit }
    requires few { length list.now ≤ 2 ^ 16 }
    requires one { qubit < 16 }
    ensures value { norm_seen result ≡ norm_of (kept (map_of (elements_of list.now)) qubit bit) }
    ensures bounds { IsNorm result }
{
    let mut sum = Norm::ZERO;
    for basis in 0..list.len() {
        if bit_of(basis, qubit) == bit {
            sum.add(list[basis]);
        }
    }
    sum
}
