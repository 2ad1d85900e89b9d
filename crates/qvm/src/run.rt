//! Whole runs of a program.

ghost use Rattle.std.specs.Prelude.{◌≡◌, ◌+◌, ◌<◌, ◌^◌, if◌then◌else◌, length, IfOk};
ghost use Rattle.quil_code.specs.Step.{FitsProgram, Answers, step, needs_word};
ghost use Rattle.qvm_step.specs.Words.{draw};
ghost use Rattle.qvm_step.specs.Run.{end_at_wait, finished, start};
ghost use Rattle.qvm.specs.Ends.{NextWord, EndsAs, end_seen};

use quil_code::{Code, Fault, Quantum, Stepped};
use quil_memory::Memory;
use qvm_ring::Ray;
use qvm_step::{draw, needs_word, step, word_matters_at_measurements_alone};
use std::alloc::{AllocError, Global};

/// How a run ended.
#[derive(Clone, Copy, Debug, PartialEq, Eq)]
pub(crate) enum End {
    /// By HALT, or behind the last instruction.
    Halted,
    /// At WAIT.
    Waiting,
    /// At its limit of steps.
    StepLimit,
    /// By a fault of a step.
    Fault(Fault),
}

/// A run that has ended.
#[derive(Drop)]
pub(crate) struct Finish {
    pub memory: Memory,
    pub end: End,
}

// The word of the next step: a new one of the seed where it is a measurement.
fn next_word(code: &Code, seed: [u8; 32], machine: &Quantum, draws: &mut u64) -> u32
    requires fits { FitsProgram code.now machine.now }
    requires room { draws.old + 1 < 2 ^ 64 }
    ensures { NextWord seed code.now machine.now draws.old draws.new result }
{
    if !needs_word(code, machine) {
        return 0;
    }
    let word = draw(seed, *draws);
    *draws += 1;
    word
}

// The machine that a run begins with.
fn first_machine(alloc: Global, code: &Code) -> Result<Quantum, AllocError>
    ensures start { IfOk result (λ machine. machine ≡ start code.now) }
    ensures fits { IfOk result (λ machine. FitsProgram code.now machine) }
{
    let ray = Ray::zero(alloc, code.qubits())?;
    let memory = Memory::zeros(alloc, code.layout())?;
    Ok(Quantum { ray, memory, at: 0 })
}

// One step, with its word.
fn advance(
    alloc: Global,
    code: &Code,
    seed: [u8; 32],
    machine: &mut Quantum,
    draws: &mut u64,
) -> Stepped
    requires fits { FitsProgram code.now machine.old }
    requires room { draws.old + 1 < 2 ^ 64 }
    ensures answer { Answers result (step code.now machine.old (draw seed draws.old)) machine.old machine.new }
    ensures count { draws.new ≡ (if needs_word code.now machine.old then draws.old + 1 else draws.old) }
    ensures fits { FitsProgram code.now machine.new }
{
    let word = next_word(code, seed, machine, draws);
    word_matters_at_measurements_alone();
    step(alloc, code, machine, word)
}

// How a run ends at WAIT with so many steps left.
fn end_at_wait(left: u64) -> End
    ensures { end_seen result ≡ end_at_wait left }
{
    if left == 0 {
        End::StepLimit
    } else {
        End::Waiting
    }
}

fn ended(machine: Quantum, end: End) -> Finish
    ensures memory { result.memory ≡ machine.memory }
    ensures end { result.end ≡ end }
{
    let Quantum {
        ray: _,
        memory,
        at: _,
    } = machine;
    Finish { memory, end }
}

/// The run of a program, with the words of a seed and of at most so many steps.
pub(crate) fn run(
    alloc: Global,
    code: &Code,
    seed: [u8; 32],
    limit: u64,
) -> Result<Finish, AllocError>
    ensures run { IfOk result (λ finish. EndsAs finish (finished limit code.now seed (start code.now) 0)) }
    ensures bits { IfOk result (λ finish. length finish.memory ≡ code.now.layout.bits) }
{
    let mut machine = first_machine(alloc, code)?;
    let mut draws = 0;
    for done in 0..limit {
        match advance(alloc, code, seed, &mut machine, &mut draws) {
            Stepped::Went => {}
            Stepped::Halted => return Ok(ended(machine, End::Halted)),
            Stepped::AtWait => return Ok(ended(machine, end_at_wait(limit - done - 1))),
            Stepped::Fault(fault) => return Ok(ended(machine, End::Fault(fault))),
            Stepped::OutOfMemory => return Err(AllocError),
        }
    }
    Ok(ended(machine, End::StepLimit))
}
