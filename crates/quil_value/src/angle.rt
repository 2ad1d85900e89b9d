//! The sine, the cosine and e^{ix} at the eighths of a turn.

ghost use Rattle.std.specs.Prelude.{◌≡◌, ◌<◌, ◌≤◌, nat_abs, pos};
ghost use Rattle.qvm_ring.specs.Views.{wide_element};
ghost use Rattle.qvm_ring.specs.Multiply.{IsWithin};
ghost use Rattle.quil_value.specs.Exact.{Ring};
ghost use Rattle.quil_value.specs.Angles.{turn, cosine, sine, cis, at_eighths, eighths_of, imaginary_eighths_of};

use crate::lack::Lack;
use crate::value::{Kind, RingNumber, Value};
use qvm_ring::Wide;

// k mod 8
#[tactic(auto, using(crate::proofs::Eighths::turn_again))]
fn eighth(k: i128) -> u8
    ensures bound { result < 8 }
    ensures value { turn k ≡ turn (pos result) }
{
    k.rem_euclid(8) as u8
}

fn real(a: i128) -> Wide
    ensures { result ≡ record { a = a; b = pos 0; c = pos 0; d = pos 0 } }
{
    Wide {
        a,
        b: 0,
        c: 0,
        d: 0,
    }
}

fn whole(a: i128) -> Value
    requires { nat_abs a ≤ 1 }
    ensures { result ≡ Ring (record { a = a; b = pos 0; c = pos 0; d = pos 0 }) 0 }
{
    Value::new(Kind::Ring(RingNumber { num: real(a), m: 0 }))
}

// a/√2
fn over_root(a: i128) -> Value
    requires { nat_abs a ≡ 1 }
    ensures { result ≡ Ring (record { a = a; b = pos 0; c = pos 0; d = pos 0 }) 1 }
{
    Value::new(Kind::Ring(RingNumber { num: real(a), m: 1 }))
}

fn cosine(k: i128) -> Value
    ensures { result ≡ cosine k }
{
    match eighth(k) {
        0 => whole(1),
        1 | 7 => over_root(1),
        2 | 6 => whole(0),
        3 | 5 => over_root(-1),
        _ => whole(-1),
    }
}

fn sine(k: i128) -> Value
    ensures { result ≡ sine k }
{
    match eighth(k) {
        0 | 4 => whole(0),
        1 | 3 => over_root(1),
        2 => whole(1),
        5 | 7 => over_root(-1),
        _ => whole(-1),
    }
}

fn turned(k: i128) -> Wide
    ensures value { wide_element result ≡ turn k }
    ensures bound { IsWithin 1 (wide_element result) }
{
    let (a, b, c, d) = match eighth(k) {
        0 => (1, 0, 0, 0),
        1 => (0, 1, 0, 0),
        2 => (0, 0, 1, 0),
        3 => (0, 0, 0, 1),
        4 => (-1, 0, 0, 0),
        5 => (0, -1, 0, 0),
        6 => (0, 0, -1, 0),
        _ => (0, 0, 0, -1),
    };
    Wide { a, b, c, d }
}

fn cis_of(k: i128) -> Value
    ensures { result ≡ cis k }
{
    let num = turned(k);
    Value::new(Kind::Ring(RingNumber { num, m: 0 }))
}

/// The cosine of a whole multiple of π/4, or of 0.
pub fn cos(x: &Value) -> Result<Value, Lack>
    ensures { result ≡ at_eighths cosine (eighths_of x.now) }
{
    match x.whole_eighths() {
        Some(k) => Ok(cosine(k)),
        None => Err(Lack::NotExact),
    }
}

/// The sine of a whole multiple of π/4, or of 0.
pub fn sin(x: &Value) -> Result<Value, Lack>
    ensures { result ≡ at_eighths sine (eighths_of x.now) }
{
    match x.whole_eighths() {
        Some(k) => Ok(sine(k)),
        None => Err(Lack::NotExact),
    }
}

/// e^{ix} of a whole multiple of π/4, or of 0.
pub fn cis(x: &Value) -> Result<Value, Lack>
    ensures { result ≡ at_eighths cis (eighths_of x.now) }
{
    match x.whole_eighths() {
        Some(k) => Ok(cis_of(k)),
        None => Err(Lack::NotExact),
    }
}

/// e^x of a whole multiple of iπ/4, or of 0.
pub fn exp(x: &Value) -> Result<Value, Lack>
    ensures { result ≡ at_eighths cis (imaginary_eighths_of x.now) }
{
    match x.imaginary_eighths() {
        Some(k) => Ok(cis_of(k)),
        None => Err(Lack::NotExact),
    }
}
