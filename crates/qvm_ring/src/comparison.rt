//! Numbers x and y√2 compared in 128 bits, without big numbers and without rounding.

ghost use Rattle.std.specs.Prelude.{◌≡◌, ◌+◌, ◌*◌, ◌<◌, ◌≤◌, pos, neg_ℤ, ◌≤ℤ◌};
ghost use Rattle.std.specs.Ordering.{nat_cmp};
ghost use Rattle.qvm_ring.specs.Ring.{is_positive};

use std::cmp::Ordering;

// x against y√2, where no step of the descent is left.
#[tactic(auto, using(crate::proofs::Descent::last_greater, crate::proofs::Descent::last_equal, crate::proofs::Descent::last_less))]
fn compare_last(x: u128, y: u128) -> Ordering
    requires { y < x → y + y ≤ x }
    ensures { result ≡ nat_cmp (x * x) (2 * (y * y)) }
{
    if y < x {
        Ordering::Greater
    } else if y == 0 {
        Ordering::Equal
    } else {
        Ordering::Less
    }
}

// x against y√2, by descent: for y < x < 2y the order is that of (x - y)√2 against y - (x - y), and each step but the last halves y.
#[tactic(auto, using(crate::proofs::Descent::keeps_descending))]
fn compare_with_root(x: u128, y: u128) -> Ordering
    ensures { result ≡ nat_cmp (x * x) (2 * (y * y)) }
{
    let mut left = x;
    let mut right = y;
    let mut is_reversed = false;
    while right < left && left - right < right {
        let over = left - right;
        left = right - over;
        right = over;
        is_reversed = !is_reversed;
    }
    let order = compare_last(left, right);
    if is_reversed { order.reverse() } else { order }
}

/// Whether x > y√2, for x and y that aren't negative.
#[tactic(auto, using(crate::proofs::Descent::is_gt_positive))]
pub fn greater(x: i128, y: i128) -> bool
    requires left { pos 0 ≤ℤ x }
    requires right { pos 0 ≤ℤ y }
    ensures { result ≡ is_positive x (neg_ℤ y) }
{
    compare_with_root(x.unsigned_abs(), y.unsigned_abs()).is_gt()
}

#[cfg(test)]
mod tests {
    use super::*;
    use std::test::*;

    // x, y and whether x² > 2y². The long ones stand beside the best fractions for √2, and at 2^127 - 1.
    const ROWS: &str = "\
0 0 false
1 0 true
0 1 false
1 1 false
2 1 true
3 2 true
7 5 false
17 12 true
39243058951466341909004733505464609607 27749033099085295754434173207717704165 false
39243058951466341909004733505464609608 27749033099085295754434173207717704165 true
39243058951466341909004733505464609607 27749033099085295754434173207717704164 true
94741125149636933417873079920900017937 66992092050551637663438906713182313772 true
94741125149636933417873079920900017936 66992092050551637663438906713182313772 false
94741125149636933417873079920900017937 66992092050551637663438906713182313773 false
170141183460469231731687303715884105727 0 true
170141183460469231731687303715884105727 85070591730234615865843651857942052863 true
170141183460469231731687303715884105727 120307984584002255772516886238812528462 true
170141183460469231731687303715884105727 120307984584002255772516886238812528463 false
170141183460469231731687303715884105727 170141183460469231731687303715884105727 false
0 170141183460469231731687303715884105727 false
";

    #[test]
    fn compares(rt: HostRuntime) -> Result<(), Fail> {
        for row in ROWS.lines() {
            let (x, rest) = row.split_once(' ').ok_or("the row has a y")?;
            let (y, want) = rest.split_once(' ').ok_or("the row has an answer")?;
            let x: i128 = x.parse()?;
            let y: i128 = y.parse()?;
            assert!(rt; x >= 0 && y >= 0);
            assert_eq!(rt; greater(x, y), want == "true", "at {row}");
        }
        Ok(())
    }
}
