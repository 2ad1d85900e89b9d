//! One step of the machine.

ghost use Rattle.std.specs.Prelude.{◌≡◌, ◌≢◌, ◌+◌, ◌<◌, [], ◌∷◌, length, slice_get, true, Some, OnOk, Err, IfSome, IsSome};
ghost use Rattle.qvm_ring.specs.Gate.{x_gate, h_gate, cnot_gate, zero_ray};
ghost use Rattle.quil_code.specs.Program.{Program, IsProgram};
ghost use Rattle.quil_code.specs.Classic.{effect};
ghost use Rattle.quil_code.specs.Step.{Answers, FitsProgram, step, after_gate, after_effect, after_instruction, makes_ray, may_want_memory};
ghost use Rattle.qvm_classic.specs.Places.{classic_at};

use crate::measure::{measure, reset, reset_qubit};
use crate::place::{here, line_at};
use quil_code::{Code, Fault, Instruction, Line, Quantum, Stepped};
use qvm_classic::classic;
use qvm_ring::ApplyFault;
use std::alloc::Global;

// What a gate's answer makes of the step: the place moves on where the gate was applied.
fn gate_step(applied: Result<(), ApplyFault>, at: &mut u32, line: u32, next: u32) -> Stepped
    ensures ok { OnOk applied ((result ≡ Stepped.Went) × (at.new ≡ next)) }
    ensures heavy { applied ≡ Err ApplyFault.AmplitudeLimit → (result ≡ Stepped.Fault (Fault.AmplitudeLimit line)) × (at.new ≡ at.old) }
    ensures memory { applied ≡ Err ApplyFault.OutOfMemory → (result ≡ Stepped.OutOfMemory) × (at.new ≡ at.old) }
{
    match applied {
        Ok(()) => {
            *at = next;
            Stepped::Went
        }
        Err(ApplyFault::AmplitudeLimit) => Stepped::Fault(Fault::AmplitudeLimit { line }),
        Err(ApplyFault::OutOfMemory) => Stepped::OutOfMemory,
    }
}

fn x_step(alloc: Global, quantum: &mut Quantum, qubit: u32, line: u32, next: u32) -> Stepped
    requires { qubit < quantum.old.ray.qubits }
    ensures { Answers result (after_gate x_gate (qubit ∷ []) line next quantum.old) quantum.old quantum.new }
{
    gate_step(
        quantum.ray.apply_x(alloc, qubit),
        &mut quantum.at,
        line,
        next,
    )
}

fn h_step(alloc: Global, quantum: &mut Quantum, qubit: u32, line: u32, next: u32) -> Stepped
    requires { qubit < quantum.old.ray.qubits }
    ensures { Answers result (after_gate h_gate (qubit ∷ []) line next quantum.old) quantum.old quantum.new }
{
    gate_step(
        quantum.ray.apply_h(alloc, qubit),
        &mut quantum.at,
        line,
        next,
    )
}

fn cnot_step(
    alloc: Global,
    quantum: &mut Quantum,
    control: u32,
    target: u32,
    line: u32,
    next: u32,
) -> Stepped
    requires first { control < quantum.old.ray.qubits }
    requires second { target < quantum.old.ray.qubits }
    requires apart { control ≢ target }
    ensures { Answers result (after_gate cnot_gate (control ∷ target ∷ []) line next quantum.old) quantum.old quantum.new }
{
    gate_step(
        quantum.ray.apply_cnot(alloc, control, target),
        &mut quantum.at,
        line,
        next,
    )
}

// The classical instruction at a place.
fn classic_step(code: &Code, quantum: &mut Quantum, place: u32, next: u32) -> Stepped
    requires bits { length quantum.old.memory ≡ code.now.layout.bits }
    requires place { IsSome (classic_at code.now place) }
    ensures answer { IfSome (classic_at code.now place) (λ c. Answers result (after_effect (effect c.0 c.1 quantum.old.memory) next quantum.old) quantum.old quantum.new) }
    ensures memory { result ≢ Stepped.OutOfMemory }
{
    match classic(code, &mut quantum.memory, place) {
        Ok(()) => {
            quantum.at = next;
            Stepped::Went
        }
        Err(fault) => Stepped::Fault(fault.into()),
    }
}

// The step at the line of a place.
fn line_step(
    alloc: Global,
    code: &Code,
    quantum: &mut Quantum,
    place: u32,
    line: Line,
    word: u32,
) -> Stepped
    requires machine { FitsProgram code.now quantum.old }
    requires program { IsProgram code.now }
    requires line { slice_get code.now.lines place ≡ Some line }
    ensures answer { Answers result (after_instruction line.instruction line.number (place + 1) word quantum.old) quantum.old quantum.new }
    ensures memory { result ≡ Stepped.OutOfMemory → makes_ray line.instruction ≡ true }
{
    let number = line.number;
    let next = place + 1;
    match line.instruction {
        Instruction::X(qubit) => x_step(alloc, quantum, qubit, number, next),
        Instruction::H(qubit) => h_step(alloc, quantum, qubit, number, next),
        Instruction::Cnot(control, target) => cnot_step(
            alloc, quantum, control, target, number, next,
        ),
        Instruction::Measure(qubit, cell) => {
            measure(quantum, qubit, cell, next, word);
            Stepped::Went
        }
        Instruction::Reset(None) => {
            reset(quantum, next);
            Stepped::Went
        }
        Instruction::Reset(Some(qubit)) => {
            reset_qubit(quantum, qubit, next, word);
            Stepped::Went
        }
        Instruction::Classic(_) => classic_step(code, quantum, place, next),
        Instruction::Passive | Instruction::Nop => {
            quantum.at = next;
            Stepped::Went
        }
        Instruction::Wait => {
            quantum.at = next;
            Stepped::AtWait
        }
        Instruction::Halt => Stepped::Halted,
    }
}

/// One step, by the word where it is a measurement or RESET of a qubit.
///
/// It is the step of the first line from the machine's place on that is no declaration or pragma; past the last the machine halts.
/// Faults are those of the line: AmplitudeLimit exactly where the reduced product of its gate weighs more than 2^94, and those of a
/// classical instruction. After a fault, at a halt and at want of memory the machine is as it was. Want of memory is answered at gates
/// alone.
#[tactic(auto, unfolding(quil_code::specs::Step::step, quil_code::specs::Step::may_want_memory))]
pub fn step(alloc: Global, code: &Code, quantum: &mut Quantum, word: u32) -> Stepped
    requires { FitsProgram code.now quantum.old }
    ensures answer { Answers result (step code.now quantum.old word) quantum.old quantum.new }
    ensures memory { result ≡ Stepped.OutOfMemory → may_want_memory code.now quantum.old ≡ true }
    ensures kept { FitsProgram code.now quantum.new }
{
    let place = here(code, quantum.at);
    match line_at(code, place) {
        Some(line) => line_step(alloc, code, quantum, place, line, word),
        None => Stepped::Halted,
    }
}

/// All qubits at 0 again, and the machine at the first line. Memory keeps its bits, and none is taken.
pub fn restart(quantum: &mut Quantum)
    ensures ray { quantum.new.ray ≡ record quantum.old.ray { amplitudes = zero_ray } }
    ensures memory { quantum.new.memory ≡ quantum.old.memory }
    ensures place { quantum.new.at ≡ 0 }
    ensures kept { (program : Program) → FitsProgram program quantum.old → FitsProgram program quantum.new }
{
    quantum.ray.restart();
    quantum.at = 0;
}
