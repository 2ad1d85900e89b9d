//! Sums of cells in eighths of a turn, over one denominator.

ghost use Rattle.std.specs.Prelude.{◌≡◌, ◌<◌, ◌≤◌, ◌^◌, ◌==◌, nat_le, nat_abs, pos, ◌*ℤ◌, Ok, Some, None, true, IfOk, IfErr, IfSome, All, fold, if◌then◌else◌};
ghost use Rattle.quil_value.specs.AngleSums.{common_multiple, counted_over, is_small, angle_sum_of, own_eighths};
ghost use Rattle.quil_value.specs.Runs.{narrow_counts};
ghost use Rattle.quil_value.specs.SumForms.{IsRatio, IsSum, IsAngleSum};
ghost use Rattle.quil_value.specs.Worked.{IsLackOf};

use crate::lack::Lack;
use crate::sum_fault::SumFault;
use crate::sums::{Cell, CellSum, Term};
use quil_number::{Fraction, gcd, lowest};
use std::alloc::Global;
use std::marker::Model;

const MOST_COMMON: u128 = 1 << 20;

const MOST_COUNT: u128 = 1 << 31;

const TOO_WIDE: SumFault = SumFault::Lack(Lack::NumberTooWide);

/// A cell and how often it is counted: at most 2^31 times, up or down.
#[derive(Clone, Copy, Debug, PartialEq, Eq)]
pub struct Count {
    pub cell: Cell,
    pub count: i64,
}

/// (n1·r1 + .. + nk·rk + own) / common, where a cell r and the sum count eighths of a turn.
#[derive(Drop)]
pub struct AngleSum {
    common: u32,
    counts: Vec<Count>,
    own: i64,
}

impl Model for AngleSum {
    ghost use Rattle.quil_value.specs.AngleSums as sums;
    ghost use Rattle.quil_value.specs.SumForms.{IsAngleSum};

    ghost Value = { sums.AngleSum };

    ghost view = { λ a. record { common = a.common; counts = a.counts.items; own = a.own } };

    ghost invariant = { λ a. IsAngleSum (record { common = a.common; counts = a.counts.items; own = a.own }) };
}

impl AngleSum {
    /// The denominator: from 1 to 2^20.
    pub fn common(&self) -> u32
        ensures common { result ≡ self.now.common }
        ensures form { IsAngleSum self.now }
    {
        self.common
    }

    /// The numerators of the cells: at most 16.
    pub fn counts(&self) -> &[Count]
        ensures counts { result.now ≡ self.now.counts }
        ensures form { IsAngleSum self.now }
    {
        &self.counts
    }

    /// The numerator that stands alone: at most 2^31 up or down.
    pub fn own(&self) -> i64
        ensures own { result ≡ self.now.own }
        ensures form { IsAngleSum self.now }
    {
        self.own
    }
}

// The least number that both divide, for a of at most 2^20 and b of at most 2^64.
fn common_multiple(a: u128, b: u128) -> u128
    requires left { 0 < a }
    requires left_bound { a ≤ 2 ^ 20 }
    requires right { 0 < b }
    requires right_bound { b ≤ 2 ^ 64 }
    ensures value { result ≡ common_multiple a b }
    ensures more { a ≤ result }
{
    a * (b / gcd(a, b))
}

// The least number that this one and each factor's denominator divide, where it is at most 2^20.
fn common_denominator(start: u128, terms: &[Term]) -> Option<u128>
    requires start { 0 < start }
    requires terms { All (λ t. IsRatio t.factor) terms.now }
    ensures value { let n = fold (λ q t. common_multiple q t.factor.q) start terms.now in result ≡ (if nat_le n (2 ^ 20) then Some n else None) }
    ensures some { IfSome result (λ n. 0 < n) }
    ensures bound { IfSome result (λ n. n ≤ 2 ^ 20) }
{
    let mut common = start;
    for term in terms {
        if common > MOST_COMMON {
            return None;
        }
        common = common_multiple(common, term.factor.q);
    }
    if common <= MOST_COMMON {
        Some(common)
    } else {
        None
    }
}

// p/q as so many times 1/n, where that is at most 2^31 up or down.
fn counted_over(n: u128, x: Fraction) -> Option<i64>
    requires some { 0 < x.q }
    requires small { n ≤ 2 ^ 20 }
    requires bound { nat_abs x.p ≤ 2 ^ 64 }
    ensures value { result ≡ (if is_small (counted_over n x) then Some (counted_over n x) else None) }
    ensures small { IfSome result (λ z. is_small z ≡ true) }
{
    let count = x.p * (n / x.q) as i128;
    if count.unsigned_abs() <= MOST_COUNT {
        Some(count as i64)
    } else {
        None
    }
}

fn counts_over(alloc: Global, n: u128, terms: &[Term]) -> Result<Vec<Count>, SumFault>
    requires small { n ≤ 2 ^ 20 }
    requires terms { All (λ t. IsRatio t.factor) terms.now }
    ensures ok { IfOk result (λ v. narrow_counts n terms.now ≡ Ok v.items) }
    ensures err { IfErr result (λ f. IsLackOf f (narrow_counts n terms.now)) }
{
    let mut counts = Vec::with_capacity(alloc, terms.len())?;
    for term in terms {
        let Some(count) = counted_over(n, term.factor) else {
            return Err(TOO_WIDE);
        };
        counts.push(Count {
            cell: term.cell,
            count,
        })?;
    }
    Ok(counts)
}

fn fourfold(p: i128) -> i128
    requires { nat_abs p ≤ 2 ^ 62 }
    ensures value { result ≡ p *ℤ pos 4 }
    ensures bound { nat_abs result ≤ 2 ^ 64 }
{
    p * 4
}

// The factor of π in eighths of a turn.
fn own_eighths(sum: &CellSum) -> Fraction
    ensures value { result ≡ own_eighths sum.now }
    ensures some { 0 < result.q }
    ensures bound { nat_abs result.p ≤ 2 ^ 64 }
{
    let own = sum.own();
    lowest(fourfold(own.p), own.q)
}

impl CellSum {
    /// The sum in eighths of a turn over one denominator, or that the denominator is above 2^20 or a numerator above 2^31.
    pub fn angle_sum(&self, alloc: Global) -> Result<AngleSum, SumFault>
        ensures ok { IfOk result (λ a. angle_sum_of self.now ≡ Ok a) }
        ensures err { IfErr result (λ f. IsLackOf f (angle_sum_of self.now)) }
    {
        let own = own_eighths(self);
        let Some(common) = common_denominator(own.q, self.terms()) else {
            return Err(TOO_WIDE);
        };
        let Some(own) = counted_over(common, own) else {
            return Err(TOO_WIDE);
        };
        let counts = counts_over(alloc, common, self.terms())?;
        Ok(AngleSum {
            common: common as u32,
            counts,
            own,
        })
    }
}
