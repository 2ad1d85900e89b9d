//! The line that a step is at.

ghost use Rattle.std.specs.Prelude.{◌≡◌, ◌≤◌, length, slice_get};
ghost use Rattle.quil_code.specs.Program.{IsProgram};
ghost use Rattle.quil_code.specs.Step.{is_passive, here, needs_word, FitsProgram};

use quil_code::{Code, Instruction, Line, Quantum};

fn is_passive(line: Line) -> bool
    ensures { result ≡ is_passive line }
{
    match line.instruction {
        Instruction::Passive => true,
        Instruction::Nop
        | Instruction::Wait
        | Instruction::Halt
        | Instruction::X(_)
        | Instruction::H(_)
        | Instruction::Cnot(_, _)
        | Instruction::Measure(_, _)
        | Instruction::Reset(_)
        | Instruction::Classic(_) => false,
    }
}

/// The first place from this one on whose line is a step, or the number of lines.
#[tactic(auto, using(crate::proofs::Places::passed, crate::proofs::Places::at_step, crate::proofs::Places::at_end))]
pub(crate) fn here(code: &Code, at: u32) -> u32
    requires { at ≤ length code.now.lines }
    ensures place { result ≡ here code.now.lines at }
    ensures within { result ≤ length code.now.lines }
{
    let mut place = at;
    while place < code.len() && is_passive(code.line(place)) {
        place += 1;
    }
    place
}

/// The line at a place, or none behind the last.
pub(crate) fn line_at(code: &Code, place: u32) -> Option<Line>
    ensures line { result ≡ slice_get code.now.lines place }
    ensures kept { IsProgram code.now }
{
    code.lines().get(place as usize).copied()
}

/// Whether the next step uses its word: exactly at MEASURE and at RESET of a qubit.
#[tactic(auto, unfolding(quil_code::specs::Step::needs_word))]
pub fn needs_word(code: &Code, quantum: &Quantum) -> bool
    requires { FitsProgram code.now quantum.now }
    ensures { result ≡ needs_word code.now quantum.now }
{
    match line_at(code, here(code, quantum.at)) {
        Some(line) => matches!(
            line.instruction,
            Instruction::Measure(_, _) | Instruction::Reset(Some(_))
        ),
        None => false,
    }
}
