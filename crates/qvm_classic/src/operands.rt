//! What instructions read and write.

ghost use Rattle.std.specs.Prelude.{◌≡◌, ◌+◌, ◌≤◌, ◌<◌, ◌^◌, length, IfOk};
ghost use Rattle.quil_memory.specs.CellTypes.{size};
ghost use Rattle.quil_memory.specs.Layout.{width, most_bits};
ghost use Rattle.quil_code.specs.Program.{CellFits, SourceFits};
ghost use Rattle.quil_code.specs.Classic.{source_value, source_word};
ghost use Rattle.qvm_classic.specs.Places.{Does};
ghost use Rattle.qvm_classic.specs.Checked.{with_checked, span_cell};

use quil_code::{Cell, ClassicFault, Source, Span};
use quil_memory::{CellType, Memory};

// The value of an operand.
pub(crate) fn source_value(memory: &Memory, kind: CellType, source: Source) -> i64
    requires { SourceFits kind source (length memory.now) }
    ensures { result ≡ source_value kind source memory.now }
{
    match source {
        Source::FromCell(cell) => memory.value(kind, cell.first),
        Source::Literal(value) => value,
    }
}

// The bits of an operand, as a number.
#[tactic(auto, using(crate::proofs::Words::cast_word))]
pub(crate) fn source_word(memory: &Memory, kind: CellType, source: Source) -> u64
    requires { SourceFits kind source (length memory.now) }
    ensures { result ≡ source_word kind source memory.now }
{
    match source {
        Source::FromCell(cell) => memory.word(kind, cell.first),
        Source::Literal(value) => value.cast_unsigned(),
    }
}

// Puts a result into a cell, where there is one.
pub(crate) fn put(
    memory: &mut Memory,
    line: u32,
    kind: CellType,
    target: Cell,
    value: Option<i64>,
) -> Result<(), ClassicFault>
    requires { CellFits kind target (length memory.old) }
    ensures { Does result (with_checked line kind target value memory.old) memory.old memory.new }
{
    match value {
        Some(value) => {
            memory.set_value(kind, target.first, value);
            Ok(())
        }
        None => Err(ClassicFault::Overflow { line }),
    }
}

// The cell of a span at an index.
pub(crate) fn span_cell(
    line: u32,
    kind: CellType,
    span: Span,
    index: i64,
) -> Result<Cell, ClassicFault>
    requires { span.first + width kind span.length ≤ most_bits }
    ensures value { result ≡ span_cell line kind span index }
    ensures within { IfOk result (λ c. c.first + size kind ≤ span.first + width kind span.length) }
{
    if index < 0 || index.unsigned_abs() >= span.length {
        return Err(ClassicFault::OutOfRange {
            line,
            region: span.region,
            index,
            length: span.length,
        });
    }
    let skipped = index.unsigned_abs() * u64::from(kind.size());
    Ok(Cell {
        first: span.first + skipped as u32,
    })
}
