//! The signs of numbers u + v√2 in 128 bits.

ghost use Rattle.std.specs.Prelude.{◌≡◌, ◌*◌, ◌^◌, ◌<◌, ◌≤◌, nat_abs, pos, neg_ℤ, ◌*ℤ◌, ◌-ℤ◌};
ghost use Rattle.qvm_ring.specs.Ring.{is_positive};
ghost use Rattle.qvm_ring.specs.Measure.{exceeds};
ghost use Rattle.qvm_ring.specs.NormViews.{norm_seen, IsNorm};

use qvm_ring::{Norm, greater};

fn opposite(z: i128) -> i128
    requires { nat_abs z < 2 ^ 127 }
    ensures { result ≡ neg_ℤ z }
{
    -z
}

// Whether u + v√2 is above 0. Where the signs differ it can't be 0, since √2 is no fraction.
#[tactic(auto, using(crate::proofs::Signs::positive_whole, crate::proofs::Signs::positive_above, crate::proofs::Signs::positive_below, crate::proofs::Signs::positive_none))]
fn is_positive(u: i128, v: i128) -> bool
    requires whole { nat_abs u < 2 ^ 127 }
    requires root { nat_abs v < 2 ^ 127 }
    ensures { result ≡ is_positive u v }
{
    if u >= 0 {
        if v >= 0 {
            u > 0 || v > 0
        } else {
            greater(u, opposite(v))
        }
    } else if v >= 0 {
        !greater(opposite(u), v)
    } else {
        false
    }
}

fn multiple(factor: u64, z: i128) -> i128
    requires factor { factor ≤ 2 ^ 32 }
    requires size { nat_abs z ≤ 2 ^ 94 }
    ensures { result ≡ pos factor *ℤ z }
{
    i128::from(factor) * z
}

// 2^32 times the one, less the word times the other.
fn scaled_difference(one: i128, all: i128, word: u32) -> i128
    requires part { nat_abs one ≤ 2 ^ 94 }
    requires whole { nat_abs all ≤ 2 ^ 94 }
    ensures value { result ≡ pos (2 ^ 32) *ℤ one -ℤ pos word *ℤ all }
    ensures size { nat_abs result < 2 ^ 127 }
{
    multiple(1 << 32, one) - multiple(u64::from(word), all)
}

/// Whether word · all < 2^32 · one.
pub(crate) fn exceeds(one: Norm, all: Norm, word: u32) -> bool
    requires part { IsNorm one }
    requires whole { IsNorm all }
    ensures { result ≡ exceeds (norm_seen one) (norm_seen all) word }
{
    let u = scaled_difference(one.u, all.u, word);
    let v = scaled_difference(one.v, all.v, word);
    is_positive(u, v)
}
