//! What gates make of all qubits at 0, by a table of rows `qubits : gate; .. => amplitudes`.
//!
//! A gate is `NAME eighths / controls / pattern of control bits / targets`. An amplitude is its a, b, c and d; those that are 0
//! aren't written, and each of the others stands behind its basis state.

ghost use Rattle.std.specs.Prelude.{◌≡◌, ◌≢◌, ◌<◌, true, false, All, AllPairs, IfSome};
ghost use Rattle.quil_code.specs.Acts.{qubits_of};

use crate::gate::apply;
use arrayvec::ArrayVec;
use quil_code::{Act, Piece, StandardGate};
use qvm_ring::{Amp, ApplyFault, Norm, Ray};
use std::alloc::{AllocError, Global};
use std::test::*;

fn is_other(qubits: &[u32], qubit: u32) -> bool
    ensures { result ≡ true → All (λ q. qubit ≢ q) qubits.now }
{
    for q in qubits {
        if *q == qubit {
            return false;
        }
    }
    true
}

fn are_different(mut qubits: &[u32]) -> bool
    ensures { result ≡ true → AllPairs (λ p q. p ≢ q) qubits.entry.now }
{
    while let [first, rest @ ..] = qubits {
        if !is_other(rest, *first) {
            return false;
        }
        qubits = rest;
    }
    true
}

fn are_below(qubits: &[u32], count: u32) -> bool
    ensures { result ≡ true → All (λ q. q < count) qubits.now }
{
    for qubit in qubits {
        if *qubit >= count {
            return false;
        }
    }
    true
}

// A gate at one pattern of control bits. The first so many of the qubits are the controls.
fn act_of(
    gate: StandardGate,
    eighths: u8,
    qubits: &[u32],
    controls: usize,
    pattern: u32,
) -> Option<Act>
    requires { eighths < 16 }
    ensures { IfSome result (λ a. qubits_of a ≡ qubits.now) }
{
    if qubits.len() > 16 || controls > qubits.len() || !are_different(qubits) {
        return None;
    }
    let (controls, targets) = qubits.split_at(controls);
    let matrix = gate.matrix(eighths);
    let root_twos = matrix.root_twos();
    if pattern >= 1 << controls.len() || matrix.arity() as usize != targets.len() {
        return None;
    }
    let controls = ArrayVec::try_from(controls).ok()?;
    let targets = ArrayVec::try_from(targets).ok()?;
    let mut pieces = ArrayVec::new();
    pieces.push(Piece { pattern, matrix });
    Some(Act::new(controls, targets, root_twos, pieces))
}

fn numbers(alloc: Global, text: &str) -> Result<Vec<u32>, Fail> {
    let mut numbers = Vec::new(alloc);
    for word in text.split(' ') {
        if !word.is_empty() {
            numbers.push(word.parse()?)?;
        }
    }
    Ok(numbers)
}

// Applies a gate to qubits of the ray.
fn on_qubits(
    alloc: Global,
    ray: &mut Ray,
    (gate, eighths): (StandardGate, u8),
    qubits: &[u32],
    (controls, pattern): (usize, u32),
) -> Result<Result<(), ApplyFault>, Fail> {
    if eighths >= 16 || !are_below(qubits, ray.qubits()) {
        return Err(Fail::from("the ray has the qubits"));
    }
    let act = act_of(gate, eighths, qubits, controls, pattern).ok_or("the gate is an act")?;
    Ok(apply(alloc, ray, &act))
}

fn gate_of_row(alloc: Global, ray: &mut Ray, row: &str) -> Result<(), Fail> {
    let (word, rest) = row.split_once(" / ").ok_or("the gate has controls")?;
    let (controls, rest) = rest.split_once(" / ").ok_or("the gate has a pattern")?;
    let (pattern, targets) = rest.split_once(" / ").ok_or("the gate has targets")?;
    let (name, eighths) = word.split_once(' ').ok_or("the gate has an angle")?;
    let gate = StandardGate::named(name.as_bytes()).ok_or("the gate is a standard gate")?;
    let mut qubits = numbers(alloc, controls)?;
    let controls = qubits.len();
    for target in &numbers(alloc, targets)? {
        qubits.push(*target)?;
    }
    let angle = (gate, eighths.parse()?);
    on_qubits(alloc, ray, angle, &qubits, (controls, pattern.parse()?))??;
    Ok(())
}

fn ray_text(alloc: Global, ray: &Ray) -> Result<String, AllocError> {
    let mut text = String::new(alloc);
    for basis in 0..1 << ray.qubits() {
        let Amp { a, b, c, d } = ray.amp(basis);
        if ray.amp(basis) == Amp::ZERO {
            continue;
        }
        if !text.is_empty() {
            text.push_str(", ")?;
        }
        let part = format!(in alloc; "{basis}: {a} {b} {c} {d}")?;
        text.push_str(&part)?;
    }
    Ok(text)
}

fn told(alloc: Global, row: &str) -> Result<String, Fail> {
    let (qubits, gates) = row.split_once(" : ").ok_or("the row has gates")?;
    let qubits: u32 = qubits.parse()?;
    if qubits > 16 {
        return Err(Fail::from("a ray has at most 16 qubits"));
    }
    let mut ray = Ray::zero(alloc, qubits)?;
    for gate in gates.split("; ") {
        gate_of_row(alloc, &mut ray, gate)?;
    }
    Ok(ray_text(alloc, &ray)?)
}

const ROWS: &str = "\
2 : X 0 /  / 0 / 1 => 2: 1 0 0 0
2 : H 0 /  / 0 / 0 => 0: 1 0 0 0, 1: 1 0 0 0
2 : H 0 /  / 0 / 0; CNOT 0 /  / 0 / 0 1 => 0: 1 0 0 0, 3: 1 0 0 0
2 : H 0 /  / 0 / 0; CNOT 0 /  / 0 / 1 0 => 0: 1 0 0 0, 1: 1 0 0 0
2 : H 0 /  / 0 / 0; X 0 / 0 / 1 / 1 => 0: 1 0 0 0, 3: 1 0 0 0
2 : H 0 /  / 0 / 0; X 0 / 0 / 0 / 1 => 1: 1 0 0 0, 2: 1 0 0 0
2 : H 0 /  / 0 / 1; H 0 / 1 / 1 / 0 => 0: 0 1 0 -1, 2: 1 0 0 0, 3: 1 0 0 0
2 : H 0 /  / 0 / 1; RX 2 / 1 / 1 / 0 => 0: 0 1 0 -1, 2: 1 0 0 0, 3: 0 0 -1 0
3 : X 0 /  / 0 / 2; X 0 / 2 1 / 2 / 0 => 5: 1 0 0 0
3 : X 0 /  / 0 / 2; X 0 / 1 2 / 2 / 0 => 4: 1 0 0 0
3 : H 0 /  / 0 / 0; T 0 /  / 0 / 0; X 0 /  / 0 / 2; CSWAP 0 /  / 0 / 2 0 1 => 4: 1 0 0 0, 6: 0 1 0 0
3 : H 0 /  / 0 / 0; T 0 /  / 0 / 0; X 0 /  / 0 / 2; CSWAP 0 /  / 0 / 1 0 2 => 4: 1 0 0 0, 5: 0 1 0 0
4 : X 0 /  / 0 / 3; X 0 /  / 0 / 0; CCNOT 0 /  / 0 / 3 0 2 => 13: 1 0 0 0
";

#[test]
fn gates_come_to_this(rt: HostRuntime) -> Result<(), Fail> {
    for row in ROWS.lines() {
        let (given, want) = row.split_once(" => ").ok_or("the row has an answer")?;
        assert_eq!(rt; told(rt.alloc(), given)?.as_str(), want, "at {given}");
    }
    Ok(())
}

// H on each of 16 qubits makes all 65,536 amplitudes 1, and once more leaves state 0 alone.
#[test]
fn h_on_all_qubits_twice(rt: HostRuntime) -> Result<(), Fail> {
    let alloc = rt.alloc();
    let mut ray = Ray::zero(alloc, 16)?;
    for qubit in 0..16 {
        on_qubits(alloc, &mut ray, (StandardGate::H, 0), &[qubit], (0, 0))??;
    }
    for basis in 0..1 << ray.qubits() {
        assert_eq!(rt; ray.amp(basis), Amp::ONE);
    }
    for qubit in 0..16 {
        on_qubits(alloc, &mut ray, (StandardGate::H, 0), &[qubit], (0, 0))??;
    }
    assert_eq!(rt; ray_text(alloc, &ray)?.as_str(), "0: 1 0 0 0");
    Ok(())
}

// H and T by turns: each H may double the norm, which the last ray before the fault has at 2^94.
#[test]
fn many_steps_pass_the_limit(rt: HostRuntime) -> Result<(), Fail> {
    let alloc = rt.alloc();
    let mut ray = Ray::zero(alloc, 1)?;
    let limit = Norm { u: 1 << 94, v: 0 };
    for step in 0..400 {
        let gate = if step % 2 == 0 {
            StandardGate::H
        } else {
            StandardGate::T
        };
        let before = ray_text(alloc, &ray)?;
        let applied = on_qubits(alloc, &mut ray, (gate, 0), &[0], (0, 0))?;
        if applied == Err(ApplyFault::AmplitudeLimit) {
            assert_eq!(rt; ray_text(alloc, &ray)?.as_str(), before.as_str());
            assert_eq!(rt; ray.norm(), limit);
            return Ok(());
        }
        applied?;
    }
    Err(Fail::from("the limit is passed within 400 steps"))
}
