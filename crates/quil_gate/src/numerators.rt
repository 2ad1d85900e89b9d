//! The numerators of entries over one power of √2.

ghost use Rattle.std.specs.Prelude.{◌≡◌, ◌-◌, ◌^◌, ◌<◌, ◌≤◌, nat_abs, nat_le, None, length, All, IfSome};
ghost use Rattle.qvm_ring.specs.Ring.{times, root_two, norm_whole};
ghost use Rattle.qvm_ring.specs.Views.{element_of, elements_of, wide_element};
ghost use Rattle.qvm_ring.specs.Multiply.{IsWithin};
ghost use Rattle.quil_code.specs.Controls.{root_two_to};
ghost use Rattle.quil_gate.specs.Definitions.{greatest_power, numerators, padded};
ghost use Rattle.quil_gate.specs.Reading.{entries_of, is_moderate, HasGreat};

use quil_value::RingNumber;
use qvm_ring::{Amp, Wide};

/// The greatest power of √2 below an entry.
pub(crate) fn greatest_power(entries: &[RingNumber]) -> u32
    ensures { result ≡ greatest_power (entries_of entries.now) }
{
    let mut greatest = 0;
    for entry in entries {
        greatest = greatest.max(entry.m);
    }
    greatest
}

fn is_small_part(x: i128) -> bool
    ensures { result ≡ nat_le (nat_abs x) (2 ^ 20) }
{
    x.unsigned_abs() <= 1 << 20
}

// Whether no coefficient is above 2^20.
fn is_moderate(z: Wide) -> bool
    ensures { result ≡ is_moderate (wide_element z) }
{
    is_small_part(z.a) && is_small_part(z.b) && is_small_part(z.c) && is_small_part(z.d)
}

// z·√2
fn rooted(z: Wide) -> Wide
    requires { IsWithin (2 ^ 20) (wide_element z) }
    ensures { wide_element result ≡ times root_two (wide_element z) }
{
    Wide {
        a: z.b - z.d,
        b: z.a + z.c,
        c: z.b + z.d,
        d: z.c - z.a,
    }
}

fn narrow_part(x: i128) -> i64
    requires { nat_abs x ≤ 2 ^ 20 }
    ensures { result ≡ x }
{
    x as i64
}

// A number as an entry of a matrix, where it is small.
#[tactic(auto, using(crate::proofs::Numbers::within_if_small, crate::proofs::Numbers::great_unless_small))]
fn narrow(z: Wide) -> Option<Amp>
    ensures some { IfSome result (λ w. element_of w ≡ wide_element z) }
    ensures small { IfSome result (λ w. IsWithin (2 ^ 20) (element_of w)) }
    ensures none { result ≡ None → 2 ^ 40 < norm_whole (wide_element z) }
{
    if !is_moderate(z) {
        return None;
    }
    Some(Amp {
        a: narrow_part(z.a),
        b: narrow_part(z.b),
        c: narrow_part(z.c),
        d: narrow_part(z.d),
    })
}

// The numerator over √2^m, where it is small.
fn raised(entry: RingNumber, m: u32) -> Option<Amp>
    ensures some { IfSome result (λ w. element_of w ≡ times (wide_element entry.num) (root_two_to (m - entry.m))) }
    ensures small { IfSome result (λ w. IsWithin (2 ^ 20) (element_of w)) }
    ensures none { result ≡ None → 2 ^ 40 < norm_whole (times (wide_element entry.num) (root_two_to (m - entry.m))) }
{
    let mut number = entry.num;
    for _turn in 0..m.saturating_sub(entry.m) {
        if !is_moderate(number) {
            return None;
        }
        number = rooted(number);
    }
    narrow(number)
}

/// The numerators over √2^m, with zeros behind them; or nothing, where one is too great for a unitary matrix.
pub(crate) fn numerators(entries: &[RingNumber], m: u32) -> Option<[Amp; 64]>
    requires { length entries.now ≤ 64 }
    ensures some { IfSome result (λ zs. elements_of zs ≡ padded (numerators m (entries_of entries.now))) }
    ensures small { IfSome result (λ zs. All (λ z. IsWithin (2 ^ 20) (element_of z)) zs) }
    ensures none { result ≡ None → HasGreat (numerators m (entries_of entries.now)) }
{
    let mut all = [Amp::ZERO; 64];
    for (place, entry) in entries.iter().enumerate() {
        let Some(numerator) = raised(*entry, m) else {
            return None;
        };
        all[place] = numerator;
    }
    Some(all)
}
