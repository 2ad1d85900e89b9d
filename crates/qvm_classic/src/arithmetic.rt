//! Operations on numbers.

ghost use Rattle.std.specs.Prelude.{◌≡◌, ◌≤◌, ◌<◌, ◌^◌, ◌*ℤ◌, neg_ℤ, pos, int_div, ◌≢◌};
ghost use Rattle.quil_memory.specs.CellTypes.{size, in_type};
ghost use Rattle.quil_memory.specs.declared.cell_type.CellType.TheVariants.{Integer};
ghost use Rattle.quil_code.specs.Operands.{bitwise_type};
ghost use Rattle.quil_code.specs.Classic.{sum_of, bits_together, other_bits, compares};
ghost use Rattle.qvm_classic.specs.Checked.{if_in_type};

use quil_code::{BitOperation, Bitwise, Comparison, SumOperation};

// A sum or a difference of 64 bits.
#[tactic(auto, using(crate::proofs::Fits::checked_result))]
pub(crate) fn sum_of(operation: SumOperation, x: i64, y: i64) -> Option<i64>
    ensures { result ≡ if_in_type Integer (sum_of operation x y) }
{
    match operation {
        SumOperation::Add => x.checked_add(y),
        SumOperation::Sub => x.checked_sub(y),
    }
}

#[tactic(auto, using(crate::proofs::Fits::checked_result))]
pub(crate) fn product_of(x: i64, y: i64) -> Option<i64>
    ensures { result ≡ if_in_type Integer (x *ℤ y) }
{
    x.checked_mul(y)
}

// The quotient towards zero.
#[tactic(auto, using(crate::proofs::Fits::checked_quotient))]
pub(crate) fn quotient_of(x: i64, y: i64) -> Option<i64>
    requires { y ≢ pos 0 }
    ensures { result ≡ if_in_type Integer (int_div x y) }
{
    x.checked_div(y)
}

#[tactic(auto, using(crate::proofs::Fits::checked_result))]
pub(crate) fn negative_of(x: i64) -> Option<i64>
    ensures { result ≡ if_in_type Integer (neg_ℤ x) }
{
    x.checked_neg()
}

// The value, where it is in the type.
pub(crate) fn if_in_type(kind: Bitwise, value: i64) -> Option<i64>
    ensures { result ≡ if_in_type (bitwise_type kind) value }
{
    let greatest = match kind {
        Bitwise::Bit => 1,
        Bitwise::Octet => 255,
        Bitwise::Integer => return Some(value),
    };
    if value < 0 || value > greatest {
        return None;
    }
    Some(value)
}

pub(crate) fn bits_together(operation: BitOperation, x: u64, y: u64) -> u64
    ensures { result ≡ bits_together operation x y }
{
    match operation {
        BitOperation::And => x & y,
        BitOperation::Ior => x | y,
        BitOperation::Xor => x ^ y,
    }
}

// The bits of a cell of the type that are 0 in `x`.
pub(crate) fn other_bits(kind: Bitwise, x: u64) -> u64
    requires { x < 2 ^ size (bitwise_type kind) }
    ensures { result ≡ other_bits (bitwise_type kind) x }
{
    match kind {
        Bitwise::Bit => 1 - x,
        Bitwise::Octet => 255 - x,
        Bitwise::Integer => u64::MAX - x,
    }
}

pub(crate) fn compares(comparison: Comparison, x: i64, y: i64) -> bool
    ensures { result ≡ compares comparison x y }
{
    match comparison {
        Comparison::Eq => x == y,
        Comparison::Gt => x > y,
        Comparison::Ge => x >= y,
        Comparison::Lt => x < y,
        Comparison::Le => x <= y,
    }
}
