//! Whole numbers in the ring, and whole numbers times i.

ghost use Rattle.std.specs.Prelude.{◌≡◌, ◌≤◌, ◌^◌, nat_abs};
ghost use Rattle.qvm_ring.specs.Views.{wide_element};
ghost use Rattle.qvm_ring.specs.Multiply.{IsWithin};
ghost use Rattle.quil_value.specs.RealNumbers.{real_number, imaginary_number};

use qvm_ring::Wide;

/// The number p, which is at most 2^62 in absolute value.
pub(crate) fn real_number(p: i128) -> Wide
    requires { nat_abs p ≤ 2 ^ 62 }
    ensures value { wide_element result ≡ real_number p }
    ensures bound { IsWithin (2 ^ 62) (wide_element result) }
{
    Wide {
        a: p,
        b: 0,
        c: 0,
        d: 0,
    }
}

/// The number p·i, where p is at most 2^62 in absolute value.
pub(crate) fn imaginary_number(p: i128) -> Wide
    requires { nat_abs p ≤ 2 ^ 62 }
    ensures value { wide_element result ≡ imaginary_number p }
    ensures bound { IsWithin (2 ^ 62) (wide_element result) }
{
    Wide {
        a: 0,
        b: 0,
        c: p,
        d: 0,
    }
}
