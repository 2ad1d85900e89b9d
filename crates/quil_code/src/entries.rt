//! The entries of the standard gates.

ghost use Rattle.std.specs.Prelude.{◌≡◌, ◌+◌, ◌-◌, ◌/◌, ◌%◌, ◌<◌, ◌≤◌, ◌^◌, ◌==◌, ◌+ℤ◌, if◌then◌else◌, nat_abs, ℕ};
ghost use Rattle.qvm_ring.specs.Ring.{plus, unit, nought};
ghost use Rattle.qvm_ring.specs.Views.{element_of};
ghost use Rattle.qvm_ring.specs.Multiply.{IsWithin};
ghost use Rattle.quil_code.specs.StandardGates.{phase, square_of, diagonal_with, exchange_of, other_of, form_of, entry_of};
ghost use Rattle.quil_code.specs.Entries.{up, down};
ghost use Rattle.quil_code.specs.declared.standard_gate.StandardGate.TheVariants.{Rx, Ry, Rz};

use crate::standard_gate::StandardGate;
use qvm_ring::Amp;

const fn amp(a: i64, b: i64, c: i64, d: i64) -> Amp
    ensures { result ≡ record { a = a; b = b; c = c; d = d } }
{
    Amp { a, b, c, d }
}

// ω^k
fn power(k: u8) -> Amp
    ensures value { element_of result ≡ phase k }
    ensures bound { IsWithin 1 (element_of result) }
{
    match k % 8 {
        0 => amp(1, 0, 0, 0),
        1 => amp(0, 1, 0, 0),
        2 => amp(0, 0, 1, 0),
        3 => amp(0, 0, 0, 1),
        4 => amp(-1, 0, 0, 0),
        5 => amp(0, -1, 0, 0),
        6 => amp(0, 0, -1, 0),
        _ => amp(0, 0, 0, -1),
    }
}

fn sum(x: i64, y: i64) -> i64
    requires left { nat_abs x ≤ 1 }
    requires right { nat_abs y ≤ 1 }
    ensures value { result ≡ x +ℤ y }
    ensures bound { nat_abs result ≤ 2 }
{
    x + y
}

// ω^j + ω^k
fn powers(j: u8, k: u8) -> Amp
    ensures value { element_of result ≡ plus (phase j) (phase k) }
    ensures bound { IsWithin 2 (element_of result) }
{
    let x = power(j);
    let y = power(k);
    amp(sum(x.a, y.a), sum(x.b, y.b), sum(x.c, y.c), sum(x.d, y.d))
}

fn square(p: Amp, q: Amp, r: Amp, s: Amp, row: u8, column: u8) -> Amp
    ensures { element_of result ≡ square_of (element_of p) (element_of q) (element_of r) (element_of s) row column }
{
    if row == 0 {
        if column == 0 { p } else { q }
    } else if column == 0 {
        r
    } else {
        s
    }
}

fn diagonal(place: u8, z: Amp, row: u8, column: u8) -> Amp
    ensures { element_of result ≡ diagonal_with place (element_of z) row column }
{
    if row == column {
        if row == place { z } else { Amp::ONE }
    } else {
        Amp::ZERO
    }
}

fn other(p: u8, q: u8, row: u8) -> u8
    ensures { result ≡ other_of p q row }
{
    if row == p {
        q
    } else if row == q {
        p
    } else {
        row
    }
}

fn exchanged(p: u8, q: u8, z: Amp, row: u8, column: u8) -> Amp
    ensures { element_of result ≡ exchange_of p q (element_of z) row column }
{
    if column == other(p, q, row) {
        if row == column { Amp::ONE } else { z }
    } else {
        Amp::ZERO
    }
}

// θ/2 in eighths, or θ where that is no whole number
fn up(k: u8) -> u8
    requires { k < 16 }
    ensures value { result ≡ up k }
    ensures bound { result < 16 }
{
    if k % 2 == 0 { k / 2 } else { k }
}

// -θ/2 in eighths, from 0 to 8, or 0 where that is no whole number
fn down(k: u8) -> u8
    requires { k < 16 }
    ensures value { result ≡ down k }
    ensures bound { result < 16 }
{
    if k % 2 == 0 { 8 - k / 2 } else { 0 }
}

#[tactic(auto, using(crate::proofs::Unitary::cosines, crate::proofs::Unitary::imaginary_sines))]
fn rx(k: u8, row: u8, column: u8) -> Amp
    requires { k < 16 }
    ensures { element_of result ≡ entry_of Rx k row column }
{
    let cosine = powers(up(k), down(k));
    let sine = powers(down(k), up(k) + 4);
    square(cosine, sine, sine, cosine, row, column)
}

#[tactic(auto, using(crate::proofs::Unitary::cosines, crate::proofs::Unitary::sines, crate::proofs::Unitary::negated_sines))]
fn ry(k: u8, row: u8, column: u8) -> Amp
    requires { k < 16 }
    ensures { element_of result ≡ entry_of Ry k row column }
{
    let cosine = powers(up(k), down(k));
    let sine = powers(up(k) + 6, down(k) + 2);
    let negated = powers(up(k) + 2, down(k) + 6);
    square(cosine, negated, sine, cosine, row, column)
}

#[tactic(auto, using(crate::proofs::Unitary::lower_is, crate::proofs::Unitary::upper_is))]
fn rz(k: u8, row: u8, column: u8) -> Amp
    requires { k < 16 }
    ensures { element_of result ≡ entry_of Rz k row column }
{
    square(
        power(down(k)),
        Amp::ZERO,
        Amp::ZERO,
        power(up(k)),
        row,
        column,
    )
}

// Each entry is small.
pub(crate) fn within(gate: StandardGate, k: u8, row: u8, column: u8)
    requires angle { k < 16 }
    requires row { row < 2 ^ (form_of gate).arity }
    requires column { column < 2 ^ (form_of gate).arity }
    ensures { IsWithin 2 (entry_of gate k row column) }
{}

/// The entry of a gate at an angle of so many eighths.
pub(crate) fn chosen(gate: StandardGate, k: u8, row: u8, column: u8) -> Amp
    requires { k < 16 }
    ensures { element_of result ≡ entry_of gate k row column }
{
    let zero = Amp::ZERO;
    let one = Amp::ONE;
    match gate {
        StandardGate::I => square(one, zero, zero, one, row, column),
        StandardGate::X => square(zero, one, one, zero, row, column),
        StandardGate::Y => square(zero, power(6), power(2), zero, row, column),
        StandardGate::Z => diagonal(1, power(4), row, column),
        StandardGate::H => square(one, one, one, power(4), row, column),
        StandardGate::S => diagonal(1, power(2), row, column),
        StandardGate::T => diagonal(1, power(1), row, column),
        StandardGate::Phase => diagonal(1, power(k), row, column),
        StandardGate::Rx => rx(k, row, column),
        StandardGate::Ry => ry(k, row, column),
        StandardGate::Rz => rz(k, row, column),
        StandardGate::Cz => diagonal(3, power(4), row, column),
        StandardGate::Cphase00 => diagonal(0, power(k), row, column),
        StandardGate::Cphase01 => diagonal(1, power(k), row, column),
        StandardGate::Cphase10 => diagonal(2, power(k), row, column),
        StandardGate::Cphase => diagonal(3, power(k), row, column),
        StandardGate::Cnot => exchanged(2, 3, one, row, column),
        StandardGate::Ccnot => exchanged(6, 7, one, row, column),
        StandardGate::Swap => exchanged(1, 2, one, row, column),
        StandardGate::Cswap => exchanged(5, 6, one, row, column),
        StandardGate::Iswap => exchanged(1, 2, power(2), row, column),
        StandardGate::Pswap => exchanged(1, 2, power(k), row, column),
    }
}
