//! The qubits of a program, numbered in rising order.

ghost use Rattle.std.specs.Prelude.{◌≡◌, ◌<◌, ◌≤◌, ◌^◌, ◌||◌, ℕ, false, true, map, length, slice_index_or, slice_set, position, ◌==◌, IfOk};
ghost use Rattle.quil_code.specs.Program.{most_qubits};
ghost use Rattle.quil_link.specs.Passes.{Loads};
ghost use Rattle.quil_link.specs.Built.{qubit_limit};
ghost use Rattle.quil_link.specs.Numbered.{is_on, is_used, qubits_of, qubit_place, renumbered, numbered_line, numbered};
ghost use Rattle.quil_link.specs.Steps.{AreLinked, marked_places};

use crate::gate::QUBIT_LIMIT;
use quil_code::{Code, Instruction, Line, LoadFault, MOST_QUBITS};
use quil_memory::Layout;
use std::alloc::{AllocError, Global};

// So many places, none of them marked.
fn unmarked(alloc: Global, count: usize) -> Result<Vec<bool>, AllocError>
    ensures size { IfOk result (λ marks. length marks.items ≡ count) }
    ensures none { IfOk result (λ marks. (q : ℕ) → slice_index_or marks.items q false ≡ false) }
{
    Vec::from_elem(alloc, false, count)
}

// Marks a place, if it is there.
#[tactic(auto, using(std::proofs::lemmas::List::set_past))]
fn mark(marks: &mut [bool], place: u32)
    ensures { marks.new ≡ slice_set marks.old place true }
{
    if (place as usize) < marks.len() {
        marks[place as usize] = true;
    }
}

// Marks the qubits of an instruction.
fn mark_instruction(marks: &mut [bool], instruction: Instruction)
    ensures size { length marks.new ≡ length marks.old }
    ensures marks { (q : ℕ) → q < length marks.old
        → slice_index_or marks.new q false ≡ (slice_index_or marks.old q false || is_on q instruction) }
{
    match instruction {
        Instruction::X(qubit)
        | Instruction::H(qubit)
        | Instruction::Measure(qubit, _)
        | Instruction::Reset(Some(qubit)) => {
            mark(marks, qubit);
        }
        Instruction::Cnot(control, target) => {
            mark(marks, control);
            mark(marks, target);
        }
        Instruction::Passive
        | Instruction::Nop
        | Instruction::Wait
        | Instruction::Halt
        | Instruction::Reset(None)
        | Instruction::Classic(_) => {}
    }
}

// Marks the qubits that the lines use.
fn mark_lines(marks: &mut [bool], mut lines: &[Line])
    ensures size { length marks.new ≡ length marks.old }
    ensures marks { (q : ℕ) → q < length marks.old
        → slice_index_or marks.new q false ≡ (slice_index_or marks.old q false || is_used lines.entry.now q) }
{
    while let [line, rest @ ..] = lines {
        mark_instruction(marks, line.instruction);
        lines = rest;
    }
}

#[tactic(auto, using(crate::proofs::Marks::marked_yes, crate::proofs::Marks::marked_no))]
fn marked_places(alloc: Global, marks: &[bool]) -> Result<Vec<u32>, AllocError>
    requires { length marks.now ≤ 2 ^ 32 }
    ensures { IfOk result (λ places. places.items ≡ marked_places marks.now) }
{
    let mut places = Vec::new(alloc);
    for (place, is_marked) in marks.iter().enumerate() {
        if *is_marked {
            places.push(place as u32)?;
        }
    }
    Ok(places)
}

// For each qubit whether some line uses it.
fn used_marks(alloc: Global, lines: &[Line]) -> Result<Vec<bool>, AllocError>
    ensures size { IfOk result (λ marks. length marks.items ≡ qubit_limit) }
    ensures marks { IfOk result (λ marks. (q : ℕ) → q < qubit_limit → slice_index_or marks.items q false ≡ is_used lines.now q) }
{
    let mut marks = unmarked(alloc, QUBIT_LIMIT as usize)?;
    mark_lines(&mut marks, lines);
    Ok(marks)
}

// The qubits that some line uses, in rising order.
fn qubits_of(alloc: Global, lines: &[Line]) -> Result<Vec<u32>, AllocError>
    ensures { IfOk result (λ qubits. qubits.items ≡ qubits_of lines.now) }
{
    let marks = used_marks(alloc, lines)?;
    marked_places(alloc, &marks)
}

fn position_of(qubits: &[u32], qubit: u32) -> Option<usize>
    ensures { result ≡ position (λ p. p == qubit) qubits.now }
{
    qubits.iter().position(|other| *other == qubit)
}

// The number of a qubit of the program.
fn qubit_place(qubits: &[u32], qubit: u32) -> u32
    requires { length qubits.now ≤ most_qubits }
    ensures { result ≡ qubit_place qubits.now qubit }
{
    match position_of(qubits, qubit) {
        Some(place) => place as u32,
        None => 0,
    }
}

fn renumbered(qubits: &[u32], instruction: Instruction) -> Instruction
    requires { length qubits.now ≤ most_qubits }
    ensures { result ≡ renumbered qubits.now instruction }
{
    match instruction {
        Instruction::X(qubit) => Instruction::X(qubit_place(qubits, qubit)),
        Instruction::H(qubit) => Instruction::H(qubit_place(qubits, qubit)),
        Instruction::Cnot(control, target) => {
            Instruction::Cnot(qubit_place(qubits, control), qubit_place(qubits, target))
        }
        Instruction::Measure(qubit, bit) => Instruction::Measure(qubit_place(qubits, qubit), bit),
        Instruction::Reset(Some(qubit)) => Instruction::Reset(Some(qubit_place(qubits, qubit))),
        Instruction::Reset(None) => Instruction::Reset(None),
        Instruction::Passive => Instruction::Passive,
        Instruction::Nop => Instruction::Nop,
        Instruction::Wait => Instruction::Wait,
        Instruction::Halt => Instruction::Halt,
        Instruction::Classic(classic) => Instruction::Classic(classic),
    }
}

#[tactic(auto, using(std::proofs::lemmas::List::Edits::map_over_more))]
fn renumber(qubits: &[u32], lines: &mut [Line])
    requires { length qubits.now ≤ most_qubits }
    ensures { lines.new ≡ map (numbered_line qubits.now) lines.old }
{
    for line in lines.iter_mut() {
        line.instruction = renumbered(qubits, line.instruction);
    }
}

/// The program of a layout and linked lines, or TooManyQubits.
pub(crate) fn numbered(
    alloc: Global,
    layout: Layout,
    mut lines: Vec<Line>,
) -> Result<Code, LoadFault>
    requires fit { AreLinked lines.items layout.bits }
    requires few { length lines.items < 2 ^ 32 }
    ensures { Loads result (numbered layout lines.items) }
{
    let qubits = qubits_of(alloc, &lines)?;
    if qubits.len() > MOST_QUBITS as usize {
        return Err(LoadFault::TooManyQubits {
            count: qubits.len() as u64,
        });
    }
    renumber(&qubits, &mut lines);
    // A layout has at most 65,536 bits.
    let _bits = layout.bits();
    Ok(Code::new(layout, qubits, lines))
}
