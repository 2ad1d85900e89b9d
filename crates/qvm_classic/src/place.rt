//! The classical instruction at a place.

ghost use Rattle.std.specs.Prelude.{◌≡◌, length, IfSome, IsSome};
ghost use Rattle.quil_code.specs.Classic.{effect};
ghost use Rattle.qvm_classic.specs.Places.{Does, classic_at};

use crate::apply::apply;
use quil_code::{ClassicFault, Code, Instruction};
use quil_memory::Memory;

/// Does the classical instruction at a place of a code, in a memory of its layout. Takes no memory.
///
/// Refuses OutOfRange where the index of a LOAD or a STORE is negative or not below the region's length, Overflow where a result
/// isn't in its cell's type, and ZeroDivide where DIV divides by 0. Memory is then as it was.
pub fn classic(code: &Code, memory: &mut Memory, at: u32) -> Result<(), ClassicFault>
    requires bits { length memory.old ≡ code.now.layout.bits }
    requires place { IsSome (classic_at code.now at) }
    ensures exact { IfSome (classic_at code.now at) (λ c. Does result (effect c.0 c.1 memory.old) memory.old memory.new) }
    ensures kept { length memory.new ≡ length memory.old }
{
    let line = code.line(at);
    match line.instruction {
        Instruction::Classic(instruction) => apply(line.number, instruction, memory),
        _ => Ok(()),
    }
}
