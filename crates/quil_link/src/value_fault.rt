//! Expressions without a value, as refusals of a program.

ghost use Rattle.std.specs.Prelude.{◌≡◌, ℕ, IfOk};
ghost use Rattle.quil_link.specs.Linked as linked;
ghost use Rattle.quil_link.specs.Steps.{IsLinked};

use crate::operand::SecondOperand;
use quil_code::{Instruction, LoadFault};
use quil_tree::Place;
use quil_value::{Lack, Stop};

// Why an expression has no value, at a place of the text.
fn lack_at(place: Place, lack: Lack) -> LoadFault
    ensures { result ≡ linked.lack_at place lack }
{
    let Place { line, column } = place;
    match lack {
        Lack::NotExact => LoadFault::NotExact { line, column },
        Lack::ZeroDivisor => LoadFault::ZeroDivisor { line, column },
        Lack::NumberTooWide => LoadFault::NumberTooWide { line, column },
    }
}

// What concerns the whole expression stands where it begins.
fn stop_at(place: Place, stop: Stop) -> LoadFault
    ensures { result ≡ linked.stop_at place stop }
{
    match stop {
        Stop::At(part, lack) => lack_at(part, lack),
        Stop::Whole(lack) => lack_at(place, lack),
    }
}

/// The instruction, if its second operand has a value.
pub(crate) fn valued(
    operand: &SecondOperand,
    instruction: Result<Instruction, LoadFault>,
) -> Result<Instruction, LoadFault>
    ensures value { result ≡ linked.valued operand.now instruction }
    ensures fits { (bits : ℕ) → IfOk instruction (λ i. IsLinked i bits) → IfOk result (λ i. IsLinked i bits) }
{
    let instruction = instruction?;
    match operand {
        SecondOperand::Formula(place, Err(stop)) => Err(stop_at(*place, *stop)),
        _ => Ok(instruction),
    }
}
