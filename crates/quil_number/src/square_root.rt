//! Exact square roots.

ghost use Rattle.std.specs.Prelude.{◌≡◌, ◌<◌, ◌^◌, IfSome};
ghost use Rattle.quil_number.specs.Root.{root, fraction_root};

use crate::fraction::Fraction;

/// The number whose square is n, if there is one.
#[tactic(auto, using(crate::proofs::Roots::root_is, crate::proofs::Roots::root_none))]
pub fn root(n: u128) -> Option<u128>
    ensures value { result ≡ root n }
    ensures bound { IfSome result (λ r. r < 2 ^ 64) }
{
    let below = n.isqrt();
    if below * below == n {
        Some(below)
    } else {
        None
    }
}

/// The fraction from 0 on whose square is x, which is in lowest terms, if there is one.
pub fn fraction_root(x: Fraction) -> Option<Fraction>
    ensures { result ≡ fraction_root x.p x.q }
{
    if x.p < 0 {
        return None;
    }
    let p = root(x.p.unsigned_abs())?;
    let q = root(x.q)?;
    Some(Fraction { p: p as i128, q })
}
