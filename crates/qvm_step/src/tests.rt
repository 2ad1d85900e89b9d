//! Steps of short programs, by a table of rows `lines : commands => answers : bits`. There are two qubits and ten BITs.

ghost use Rattle.std.specs.Prelude.{◌≡◌, ◌<◌, ◌+◌, ◌≤◌, length, IfSome, IfOk};
ghost use Rattle.std.specs.List.{AllByRecursion};
ghost use Rattle.quil_code.specs.Program.{CellFits, OutcomeFits, Fits, ClassicFits};
ghost use Rattle.quil_code.specs.Step.{FitsProgram};
ghost use Rattle.quil_memory.specs.declared.cell_type.CellType.TheVariants.{Bit};

use crate::machine::{restart, step};
use crate::place::needs_word;
use quil_code::{Bitwise, Cell, Classic, Code, Fault, Instruction, Line, Quantum, Source, Stepped};
use quil_memory::{CellType, Claim, Layout, LayoutFault, Memory, Name, layout};
use qvm_ring::Ray;
use std::alloc::{AllocError, Global};
use std::test::*;

fn qubit(word: &str) -> Option<u32>
    ensures { IfSome result (λ q. q < 2) }
{
    match word {
        "0" => Some(0),
        "1" => Some(1),
        _ => None,
    }
}

// A BIT.
fn cell(word: &str) -> Option<Cell>
    ensures { IfSome result (λ c. CellFits Bit c 10) }
{
    let first: u32 = word.parse().ok()?;
    if first >= 10 {
        return None;
    }
    Some(Cell { first })
}

fn cnot(control: &str, target: &str) -> Option<Instruction>
    ensures { IfSome result (λ i. Fits i 2 10) }
{
    let control = qubit(control)?;
    let target = qubit(target)?;
    if control == target {
        return None;
    }
    Some(Instruction::Cnot(control, target))
}

// `-` for no cell.
fn measure(word: &str, place: &str) -> Option<Instruction>
    ensures { IfSome result (λ i. Fits i 2 10) }
{
    let qubit = qubit(word)?;
    if place == "-" {
        return Some(Instruction::Measure(qubit, None));
    }
    let cell = cell(place)?;
    Some(Instruction::Measure(qubit, Some(cell)))
}

// `-` for all qubits.
fn reset(word: &str) -> Option<Instruction>
    ensures { IfSome result (λ i. Fits i 2 10) }
{
    if word == "-" {
        return Some(Instruction::Reset(None));
    }
    let qubit = qubit(word)?;
    Some(Instruction::Reset(Some(qubit)))
}

// Sets a BIT.
fn set(word: &str) -> Option<Instruction>
    ensures { IfSome result (λ i. Fits i 2 10) }
{
    let target = cell(word)?;
    Some(Instruction::Classic(Classic::Move {
        kind: CellType::Bit,
        target,
        source: Source::Literal(1),
    }))
}

// A BIT becomes the OCTET of bits 2 to 9.
fn narrow(word: &str) -> Option<Instruction>
    ensures { IfSome result (λ i. Fits i 2 10) }
{
    let target = cell(word)?;
    Some(Instruction::Classic(Classic::Convert {
        kind: Bitwise::Bit,
        target,
        from: Bitwise::Octet,
        source: Cell { first: 2 },
    }))
}

fn instruction(text: &str) -> Option<Instruction>
    ensures { IfSome result (λ i. Fits i 2 10) }
{
    let mut words = text.split(' ');
    let name = words.next().unwrap_or("");
    let a = words.next().unwrap_or("");
    let b = words.next().unwrap_or("");
    match name {
        "pass" => Some(Instruction::Passive),
        "nop" => Some(Instruction::Nop),
        "wait" => Some(Instruction::Wait),
        "halt" => Some(Instruction::Halt),
        "x" => Some(Instruction::X(qubit(a)?)),
        "h" => Some(Instruction::H(qubit(a)?)),
        "cnot" => cnot(a, b),
        "measure" => measure(a, b),
        "reset" => reset(a),
        "set" => set(a),
        "narrow" => narrow(a),
        _ => None,
    }
}

// The lines, which are numbered by 11, 12 and so on.
#[tactic(auto, using(crate::proofs::Examples::fit_push))]
fn lines_of(alloc: Global, text: &str) -> Result<Vec<Line>, Fail>
    ensures fit { IfOk result (λ lines. AllByRecursion (λ l. Fits l.instruction 2 10) lines.items) }
    ensures few { IfOk result (λ lines. length lines.items ≤ 100) }
{
    let mut lines = Vec::new(alloc);
    let mut number = 11;
    for part in text.split(", ") {
        let instruction = instruction(part).ok_or("the row has instructions")?;
        if number > 110 {
            return Err(Fail::from("the row has few instructions"));
        }
        lines.push(Line {
            number,
            instruction,
        })?;
        number += 1;
    }
    Ok(lines)
}

fn ten_bits(alloc: Global) -> Result<Layout, LayoutFault> {
    let claim = Claim {
        name: Name::new(alloc, b"b")?,
        kind: CellType::Bit,
        length: 10,
        share: None,
        line: 1,
    };
    layout(alloc, &[claim])
}

#[tactic(auto, using(crate::proofs::Examples::small_program))]
fn code_of(alloc: Global, text: &str) -> Result<Code, Fail>
    ensures { IfOk result (λ code. code.layout.bits ≡ 10) }
{
    let lines = lines_of(alloc, text)?;
    let layout = ten_bits(alloc).ok().ok_or("ten BITs have a layout")?;
    if layout.bits() != 10 {
        return Err(Fail::from("ten BITs have 10 bits"));
    }
    let qubits = Vec::from_slice(alloc, &[4, 7])?;
    Ok(Code::new(layout, qubits, lines))
}

fn first_machine(alloc: Global, code: &Code) -> Result<Quantum, AllocError>
    ensures { IfOk result (λ m. FitsProgram code.now m) }
{
    Ok(Quantum {
        ray: Ray::zero(alloc, code.qubits())?,
        memory: Memory::zeros(alloc, code.layout())?,
        at: 0,
    })
}

fn answer_text(alloc: Global, stepped: Stepped, at: u32) -> Result<String, AllocError> {
    match stepped {
        Stepped::Went => format!(in alloc; "goes {at}"),
        Stepped::Halted => format!(in alloc; "halts {at}"),
        Stepped::AtWait => format!(in alloc; "waits {at}"),
        Stepped::Fault(Fault::Overflow { line }) => format!(in alloc; "overflow of {line} {at}"),
        Stepped::Fault(_) => format!(in alloc; "another fault {at}"),
        Stepped::OutOfMemory => format!(in alloc; "no memory {at}"),
    }
}

// A step without a word by `step`, a step by a word, or a restart.
fn done(alloc: Global, code: &Code, quantum: &mut Quantum, command: &str) -> Result<String, Fail>
    requires { FitsProgram code.now quantum.old }
    ensures { FitsProgram code.now quantum.new }
{
    if command == "restart" {
        restart(quantum);
        return Ok(answer_text(alloc, Stepped::Went, quantum.at)?);
    }
    let word: Option<u32> = command.parse().ok();
    if word.is_some() != needs_word(code, quantum) {
        return Err(Fail::from("a word is given where one is needed"));
    }
    let stepped = step(alloc, code, quantum, word.unwrap_or(0));
    Ok(answer_text(alloc, stepped, quantum.at)?)
}

fn push_bits(text: &mut String, memory: &Memory) -> Result<(), AllocError>
    requires { length memory.now ≡ 10 }
{
    text.push_str(" :")?;
    for place in 0..10 {
        text.push_str(match memory.word(CellType::Bit, place) {
            0 => " 0",
            _ => " 1",
        })?;
    }
    Ok(())
}

// What the commands, one after another, answer.
fn answers(
    alloc: Global,
    code: &Code,
    quantum: &mut Quantum,
    commands: &str,
) -> Result<String, Fail>
    requires { FitsProgram code.now quantum.old }
    ensures { FitsProgram code.now quantum.new }
{
    let mut text = String::new(alloc);
    for command in commands.split(' ') {
        let answer = done(alloc, code, quantum, command)?;
        if !text.is_empty() {
            text.push_str(", ")?;
        }
        text.push_str(&answer)?;
    }
    Ok(text)
}

fn told(alloc: Global, row: &str) -> Result<String, Fail> {
    let (lines, commands) = row.split_once(" : ").ok_or("the row has commands")?;
    let code = code_of(alloc, lines)?;
    let mut quantum = first_machine(alloc, &code)?;
    let mut text = answers(alloc, &code, &mut quantum, commands)?;
    push_bits(&mut text, &quantum.memory)?;
    Ok(text)
}

const ROWS: &str = "\
halt : step step => halts 0, halts 0 : 0 0 0 0 0 0 0 0 0 0
nop : step step step => goes 1, halts 1, halts 1 : 0 0 0 0 0 0 0 0 0 0
wait, set 1 : step step step => waits 1, goes 2, halts 2 : 0 1 0 0 0 0 0 0 0 0
pass, pass, set 0, halt : step step => goes 3, halts 3 : 1 0 0 0 0 0 0 0 0 0
set 2, pass, pass, wait, pass : step step step => goes 1, waits 4, halts 4 : 0 0 1 0 0 0 0 0 0 0
pass : step step => halts 0, halts 0 : 0 0 0 0 0 0 0 0 0 0
h 0, measure 0 3 : step 2147483647 step => goes 1, goes 2, halts 2 : 0 0 0 1 0 0 0 0 0 0
h 0, measure 0 3 : step 2147483648 step => goes 1, goes 2, halts 2 : 0 0 0 0 0 0 0 0 0 0
h 0, cnot 0 1, measure 0 -, measure 1 9 : step step 0 4294967295 => goes 1, goes 2, goes 3, goes 4 : 0 0 0 0 0 0 0 0 0 1
x 1, pass, measure 1 4, measure 0 4 : step 4294967295 0 => goes 1, goes 3, goes 4 : 0 0 0 0 0 0 0 0 0 0
h 0, h 0, set 5, measure 0 5 : step step step 0 => goes 1, goes 2, goes 3, goes 4 : 0 0 0 0 0 0 0 0 0 0
set 1, set 3, pass, narrow 1 : step step step step => goes 1, goes 2, overflow of 14 2, overflow of 14 2 : 0 1 0 1 0 0 0 0 0 0
set 2, narrow 1 : step step => goes 1, goes 2 : 0 1 1 0 0 0 0 0 0 0
h 0, cnot 0 1, reset 0, measure 0 2, measure 1 3 : step step 2147483647 0 0 => goes 1, goes 2, goes 3, goes 4, goes 5 : 0 0 0 1 0 0 0 0 0 0
h 0, cnot 0 1, reset 0, measure 0 2, measure 1 3 : step step 2147483648 0 0 => goes 1, goes 2, goes 3, goes 4, goes 5 : 0 0 0 0 0 0 0 0 0 0
x 0, h 1, reset -, measure 0 2, measure 1 3, reset 1 : step step step 0 0 9 => goes 1, goes 2, goes 3, goes 4, goes 5, goes 6 : 0 0 0 0 0 0 0 0 0 0
x 0, measure 0 0, wait : step 7 step restart step 7 => goes 1, goes 2, waits 3, goes 0, goes 1, goes 2 : 1 0 0 0 0 0 0 0 0 0
measure 0 1, x 0, measure 0 1 : 0 step 0 restart 0 => goes 1, goes 2, goes 3, goes 0, goes 1 : 0 0 0 0 0 0 0 0 0 0
";

#[test]
fn steps_do_this(rt: HostRuntime) -> Result<(), Fail> {
    for row in ROWS.lines() {
        let (given, want) = row.split_once(" => ").ok_or("the row has answers")?;
        assert_eq!(rt; told(rt.alloc(), given)?.as_str(), want, "at {given}");
    }
    Ok(())
}
