//! What lists of amplitudes come to, by a table of rows `amplitudes : command => answer`. An amplitude is its a, b, c and d.

ghost use Rattle.std.specs.Prelude.{◌≡◌, ℕ, ◌^◌, ◌<◌, ◌≤◌, true, IfOk};
ghost use Rattle.qvm_ring.specs.Ray.{weight, weight_limit};
ghost use Rattle.qvm_ring.specs.Views.{wide_elements_of, map_of};

use crate::amp::Amp;
use crate::fault::ApplyFault;
use crate::ray::Ray;
use crate::reduce::halve;
use crate::settle::{is_light, narrowed};
use crate::signed_norm::Norm;
use crate::sums::norm;
use crate::wide::Wide;
use std::alloc::{AllocError, Global};
use std::test::*;

fn wide(text: &str) -> Option<Wide> {
    let (a, rest) = text.split_once(' ')?;
    let (b, rest) = rest.split_once(' ')?;
    let (c, d) = rest.split_once(' ')?;
    let a: i128 = a.parse().ok()?;
    let b: i128 = b.parse().ok()?;
    let c: i128 = c.parse().ok()?;
    let d: i128 = d.parse().ok()?;
    Some(Wide { a, b, c, d })
}

// A list that weighs at most 2^94.
fn light(alloc: Global, text: &str) -> Result<Vec<Wide>, Fail>
    ensures { IfOk result (λ list. weight (map_of (wide_elements_of list.items)) ≤ weight_limit) }
{
    let mut list = Vec::new(alloc);
    for part in text.split(", ") {
        let z = wide(part).ok_or("an amplitude is four whole numbers")?;
        list.push(z)?;
    }
    if !is_light(&list) {
        return Err(Fail::from("the list is light"));
    }
    Ok(list)
}

fn is_power(count: usize) -> bool
    ensures { result ≡ true → (n : ℕ) × (n ≤ 16) × (count ≡ 2 ^ n) }
{
    if count == 1 {
        return true;
    }
    if count == 2 {
        return true;
    }
    count == 4
}

fn ray(alloc: Global, wides: &[Wide]) -> Result<Ray, Fail>
    requires { weight (map_of (wide_elements_of wides.now)) ≤ weight_limit }
{
    let list = narrowed(alloc, wides)?;
    if norm(&list).u == 0 {
        return Err(Fail::from("not all amplitudes are 0"));
    }
    if !is_power(list.len()) {
        return Err(Fail::from("there are 1, 2 or 4 amplitudes"));
    }
    Ok(Ray::of(alloc, &list)?)
}

fn push(text: &mut String, alloc: Global, z: Wide) -> Result<(), AllocError> {
    let Wide { a, b, c, d } = z;
    if !text.is_empty() {
        text.push_str(", ")?;
    }
    let z = format!(in alloc; "{a} {b} {c} {d}")?;
    text.push_str(&z)
}

fn ray_text(alloc: Global, list: &[Amp]) -> Result<String, AllocError> {
    let mut text = String::new(alloc);
    for z in list {
        let z = Wide {
            a: i128::from(z.a),
            b: i128::from(z.b),
            c: i128::from(z.c),
            d: i128::from(z.d),
        };
        push(&mut text, alloc, z)?;
    }
    Ok(text)
}

fn halved(alloc: Global, mut list: Vec<Wide>) -> Result<String, AllocError>
    requires { weight (map_of (wide_elements_of list.items)) ≤ weight_limit }
{
    let all = halve(&mut list);
    let mut text = String::new(alloc);
    for z in &list {
        push(&mut text, alloc, *z)?;
    }
    let word = if all { "divided" } else { "left" };
    format!(in alloc; "{word} {text}")
}

fn norm_text(alloc: Global, norm: Norm) -> Result<String, AllocError> {
    let Norm { u, v } = norm;
    format!(in alloc; "{u} {v}")
}

// Projects where there is something to keep.
#[tactic(auto, using(crate::proofs::NormLoops::kept_by_norm))]
fn project(ray: &mut Ray, qubit: u32, bit: bool)
    requires { qubit < ray.old.qubits }
{
    if ray.norm_where(qubit, bit).u != 0 {
        ray.project(qubit, bit);
    }
}

fn on_qubit(
    alloc: Global,
    ray: &mut Ray,
    name: &str,
    qubit: u32,
    bit: bool,
) -> Result<String, AllocError>
    requires { qubit < ray.old.qubits }
{
    match name {
        "part" => return norm_text(alloc, ray.norm_where(qubit, bit)),
        "flip" => ray.flip(qubit),
        _ => project(ray, qubit, bit),
    }
    ray_text(alloc, &ray.amplitudes)
}

// A gate, CNOT with this target.
fn gate(alloc: Global, ray: &mut Ray, name: &str, qubit: u32, target: u32) -> Result<String, Fail>
    requires { qubit < ray.old.qubits }
{
    let applied = match name {
        "x" => ray.apply_x(alloc, qubit),
        "h" => ray.apply_h(alloc, qubit),
        _ => {
            if target >= ray.qubits() || target == qubit {
                return Err(Fail::from("the ray has the target"));
            }
            ray.apply_cnot(alloc, qubit, target)
        }
    };
    let word = match applied {
        Ok(()) => "",
        Err(ApplyFault::AmplitudeLimit) => "too heavy: ",
        Err(ApplyFault::OutOfMemory) => return Err(Fail::from("there is memory")),
    };
    let ray = ray_text(alloc, &ray.amplitudes)?;
    Ok(format!(in alloc; "{word}{ray}")?)
}

fn told(alloc: Global, row: &str) -> Result<String, Fail> {
    let (amplitudes, command) = row.split_once(" : ").ok_or("the row has a command")?;
    let wides = light(alloc, amplitudes)?;
    if command == "halve" {
        return Ok(halved(alloc, wides)?);
    }
    let mut ray = ray(alloc, &wides)?;
    match command {
        "of" => return Ok(ray_text(alloc, &ray.amplitudes)?),
        "norm" => return Ok(norm_text(alloc, ray.norm())?),
        "restart" => {
            ray.restart();
            return Ok(ray_text(alloc, &ray.amplitudes)?);
        }
        _ => {}
    }
    let mut words = command.split(' ');
    let name = words.next().unwrap_or("");
    let qubit: u32 = words.next().unwrap_or("").parse().ok().ok_or("a qubit")?;
    if qubit >= ray.qubits() {
        return Err(Fail::from("the ray has the qubit"));
    }
    let last: u32 = words.next().unwrap_or("0").parse()?;
    match name {
        "x" | "h" | "cnot" => gate(alloc, &mut ray, name, qubit, last),
        _ => Ok(on_qubit(alloc, &mut ray, name, qubit, last == 1)?),
    }
}

const ROWS: &str = "\
1 0 0 0 : of => 1 0 0 0
0 0 0 -7 : of => 1 0 0 0
2 0 0 0, 2 0 0 0 : of => 1 0 0 0, 1 0 0 0
1 0 1 0, 1 0 -1 0 : of => 0 1 0 0, 0 0 0 -1
2 0 0 0, 1 0 0 0 : of => 2 0 0 0, 1 0 0 0
0 0 0 0, 0 0 0 0, 3 0 0 0, 0 0 0 0 : of => 0 0 0 0, 0 0 0 0, 1 0 0 0, 0 0 0 0
4 0 0 0, 0 2 0 2, 0 0 0 0, 0 0 -4 0 : of => 0 1 0 -1, 0 0 1 0, 0 0 0 0, 0 -1 0 -1
70368744177665 0 0 0, 70368744177664 0 0 0 : of => 70368744177665 0 0 0, 70368744177664 0 0 0
140737488355328 0 0 0, 0 0 0 0 : of => 1 0 0 0, 0 0 0 0
140737488355327 0 0 0, 0 0 0 1 : of => 140737488355327 0 0 0, 0 0 0 1
1 1 0 0, 1 -1 0 0 : norm => 4 0
1 1 0 0, 1 -1 0 0 : part 0 0 => 2 1
1 1 0 0, 1 -1 0 0 : part 0 1 => 2 -1
1 0 0 1, 0 0 0 0 : norm => 1 0
70368744177664 0 0 0, 70368744177664 1 0 0 : norm => 9903520314283042199192993793 70368744177664
1 0 0 0, 0 2 0 1, 0 0 3 -1, 5 1 0 0 : norm => 42 2
1 0 0 0, 0 2 0 1, 0 0 3 -1, 5 1 0 0 : part 0 1 => 31 5
1 0 0 0, 0 2 0 1, 0 0 3 -1, 5 1 0 0 : part 1 1 => 36 2
1 0 0 0, 0 0 0 0, 0 0 0 0, 1 0 0 0 : project 0 0 => 1 0 0 0, 0 0 0 0, 0 0 0 0, 0 0 0 0
1 0 0 0, 0 0 0 0, 0 0 0 0, 1 0 0 0 : project 0 1 => 0 0 0 0, 0 0 0 0, 0 0 0 0, 1 0 0 0
1 0 0 0, 0 0 0 0, 0 0 0 0, 1 0 0 0 : project 1 1 => 0 0 0 0, 0 0 0 0, 0 0 0 0, 1 0 0 0
1 0 0 0, 2 0 0 0, 0 1 0 -1, 1 0 0 1 : project 1 0 => 1 0 0 0, 2 0 0 0, 0 0 0 0, 0 0 0 0
1 0 0 0, 0 2 0 0, 2 0 0 0, 4 0 0 0 : project 0 1 => 0 0 0 0, 0 1 0 0, 0 0 0 0, 2 0 0 0
1 0 0 0, 2 0 0 0, 3 0 0 0, 0 0 0 5 : flip 0 => 2 0 0 0, 1 0 0 0, 0 0 0 5, 3 0 0 0
1 0 0 0, 2 0 0 0, 3 0 0 0, 0 0 0 5 : flip 1 => 3 0 0 0, 0 0 0 5, 1 0 0 0, 2 0 0 0
1 0 0 0, 0 0 0 0, 0 0 0 0, 0 0 0 0 : flip 1 => 0 0 0 0, 0 0 0 0, 1 0 0 0, 0 0 0 0
1 1 0 0, 1 -1 0 0 : flip 0 => 1 -1 0 0, 1 1 0 0
1 1 0 0, 1 -1 0 0, 0 0 0 0, 1 0 0 0 : restart => 1 0 0 0, 0 0 0 0, 0 0 0 0, 0 0 0 0
2 0 0 0, 2 0 0 0 : halve => divided 0 1 0 -1, 0 1 0 -1
2 0 0 0, 1 0 0 0 : halve => left 2 0 0 0, 1 0 0 0
1 0 1 0, 0 3 0 1 : halve => divided 0 1 0 0, 1 0 2 0
0 0 0 0 : halve => divided 0 0 0 0
1 0 0 0, 2 0 0 0, 0 0 0 0 : halve => left 1 0 0 0, 2 0 0 0, 0 0 0 0
1 0 0 0, 0 0 0 0 : h 0 => 1 0 0 0, 1 0 0 0
1 0 0 0, 1 0 0 0 : h 0 => 1 0 0 0, 0 0 0 0
1 1 0 0, 1 -1 0 0 : h 0 => 1 0 0 0, 0 1 0 0
70368744177665 0 0 0, 70368744177664 0 0 0 : h 0 => too heavy: 70368744177665 0 0 0, 70368744177664 0 0 0
1 0 0 0, 2 0 0 0, 3 0 0 0, 0 0 0 5 : h 1 => 4 0 0 0, 2 0 0 5, -2 0 0 0, 2 0 0 -5
1 0 0 0, 2 0 0 0, 3 0 0 0, 0 0 0 5 : x 1 => 3 0 0 0, 0 0 0 5, 1 0 0 0, 2 0 0 0
1 0 0 0, 2 0 0 0, 3 0 0 0, 0 0 0 5 : cnot 0 1 => 1 0 0 0, 0 0 0 5, 3 0 0 0, 2 0 0 0
1 0 0 0, 2 0 0 0, 3 0 0 0, 0 0 0 5 : cnot 1 0 => 1 0 0 0, 2 0 0 0, 0 0 0 5, 3 0 0 0
";

#[test]
fn lists_come_to_this(rt: HostRuntime) -> Result<(), Fail> {
    for row in ROWS.lines() {
        let (given, want) = row.split_once(" => ").ok_or("the row has an answer")?;
        assert_eq!(rt; told(rt.alloc(), given)?.as_str(), want, "at {given}");
    }
    Ok(())
}

// All 65,536 amplitudes are 1: none is divisible by √2.
#[test]
fn h_on_all_qubits(rt: HostRuntime) -> Result<(), Fail> {
    let mut ray = Ray::zero(rt.alloc(), 16)?;
    for qubit in 0..16 {
        assert!(rt; qubit < ray.qubits());
        ray.apply_h(rt.alloc(), qubit)?;
    }
    assert_eq!(rt; ray.amplitudes.len(), 65_536);
    for amplitude in &ray.amplitudes {
        assert_eq!(rt; *amplitude, Amp::ONE);
    }
    Ok(())
}
