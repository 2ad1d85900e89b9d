//! Measurements of states on two qubits, by a table of rows `state : qubit word, .. => bits of the norm that is left`.

use crate::measurement::{outcome, project};
use qvm_ring::{Amp, Norm, Ray};
use std::alloc::{AllocError, Global};
use std::test::*;

const ZERO: Amp = Amp::ZERO;

const ONE: Amp = Amp::ONE;
// 1 + ω, of norm 2 + √2, and 1 - ω, of norm 2 - √2.
const PLUS: Amp = Amp {
    a: 1,
    b: 1,
    c: 0,
    d: 0,
};

const MINUS: Amp = Amp {
    a: 1,
    b: -1,
    c: 0,
    d: 0,
};

#[tactic(auto, using(crate::proofs::Outcomes::four_amplitudes))]
fn state(alloc: Global, name: &str) -> Result<Option<Ray>, AllocError> {
    let ray = match name {
        "h" => Ray::of(alloc, &[ONE, ONE, ZERO, ZERO])?,
        "hth" => Ray::of(alloc, &[PLUS, MINUS, ZERO, ZERO])?,
        "bell" => Ray::of(alloc, &[ONE, ZERO, ZERO, ONE])?,
        "four" => Ray::of(alloc, &[ONE, ONE, ONE, ONE])?,
        "mixed" => Ray::of(alloc, &[ONE, PLUS, ZERO, ONE])?,
        "odd" => Ray::of(alloc, &[ZERO, MINUS, ZERO, ONE])?,
        _ => return Ok(None),
    };
    Ok(Some(ray))
}

// The bits of the measurements, one after another.
fn measure_all(text: &mut String, ray: &mut Ray, measurements: &str) -> Result<(), Fail> {
    for measurement in measurements.split(", ") {
        let (qubit, word) = measurement.split_once(' ').ok_or("the row has words")?;
        let qubit: u32 = qubit.parse()?;
        let word: u32 = word.parse()?;
        if qubit >= ray.qubits() {
            return Err(Fail::from("the row has qubits of the state"));
        }
        let bit = outcome(ray, qubit, word);
        project(ray, qubit, bit);
        text.push_str(if bit { "1" } else { "0" })?;
    }
    Ok(())
}

fn told(alloc: Global, row: &str) -> Result<String, Fail> {
    let (name, measurements) = row.split_once(" : ").ok_or("the row has measurements")?;
    let mut ray = state(alloc, name)?.ok_or("the row has a state")?;
    let mut text = String::new(alloc);
    measure_all(&mut text, &mut ray, measurements)?;
    let Norm { u, v } = ray.norm();
    text.push_str(&format!(in alloc; " of {u} {v}")?)?;
    Ok(text)
}

// "hth" is what H, T, H make of 0. "mixed" has N = 4 + √2, and in "odd" qubit 0 is surely 1.
const ROWS: &str = "\
h : 0 0 => 1 of 1 0
h : 0 2147483647 => 1 of 1 0
h : 0 2147483648 => 0 of 1 0
h : 1 0, 1 1, 1 4294967295 => 000 of 2 0
hth : 0 628983398 => 1 of 1 0
hth : 0 628983399 => 0 of 1 0
bell : 0 2147483647, 1 4294967295 => 11 of 1 0
bell : 1 2147483648, 0 0 => 00 of 1 0
four : 0 0 => 1 of 2 0
four : 1 4294967295, 0 2147483647 => 01 of 1 0
mixed : 0 3501690997 => 1 of 3 1
mixed : 0 3501690998 => 0 of 1 0
odd : 0 0, 0 1, 0 4294967295 => 111 of 3 -1
";

#[test]
fn measures(rt: HostRuntime) -> Result<(), Fail> {
    for row in ROWS.lines() {
        let (given, want) = row.split_once(" => ").ok_or("the row has an answer")?;
        assert_eq!(rt; told(rt.alloc(), given)?.as_str(), want, "at {given}");
    }
    Ok(())
}
