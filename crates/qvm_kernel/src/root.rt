//! Powers of √2.

ghost use Rattle.std.specs.Prelude.{◌≡◌, ◌^◌, ◌≤◌, pos};
ghost use Rattle.qvm_ring.specs.Views.{element_of};
ghost use Rattle.qvm_ring.specs.Multiply.{IsWithin};
ghost use Rattle.quil_code.specs.Controls.{root_two_to};

use qvm_ring::Amp;

// 2 to the power `half`.
fn power_of_two(half: u32) -> i64
    requires { half ≤ 20 }
    ensures { result ≡ pos (2 ^ half) }
{
    i64::from(1u32 << half)
}

/// √2 to the power m: 2^(m/2), times √2 = ω - ω³ where m is odd.
pub(crate) fn root_two_to(m: u32) -> Amp
    requires { m ≤ 40 }
    ensures value { element_of result ≡ root_two_to m }
    ensures bound { IsWithin (2 ^ 20) (element_of result) }
{
    let power = power_of_two(m / 2);
    if m % 2 == 0 {
        return Amp {
            a: power,
            ..Amp::ZERO
        };
    }
    Amp {
        b: power,
        d: -power,
        ..Amp::ZERO
    }
}
