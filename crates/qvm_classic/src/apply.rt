//! Each classical instruction.

ghost use Rattle.std.specs.Prelude.{◌≡◌, ◌≤◌, ◌+◌, length, Ok};
ghost use Rattle.quil_memory.specs.declared.cell_type.CellType.TheVariants as cell_type;
ghost use Rattle.quil_memory.specs.Layout.{most_bits};
ghost use Rattle.quil_code.specs.declared.classic.Classic.TheVariants as classic;
ghost use Rattle.quil_code.specs.declared.classic.ProductOperation.TheVariants.{Mul, Div};
ghost use Rattle.quil_code.specs.Operands.{arithmetic_type, bitwise_type};
ghost use Rattle.quil_code.specs.Program.{CellFits, SourceFits, SpanFits, ClassicFits};
ghost use Rattle.quil_code.specs.Classic.{effect, with_result, sum_of, after_product};
ghost use Rattle.qvm_classic.specs.Places.{Does};

use crate::arithmetic::{
    bits_together, compares, if_in_type, negative_of, other_bits, product_of, quotient_of, sum_of,
};
use crate::operands::{put, source_value, source_word, span_cell};
use quil_code::{
    Arithmetic, BitOperation, Bitwise, Cell, Classic, ClassicFault, Comparison, ProductOperation,
    Source, Span, SumOperation,
};
use quil_memory::{CellType, Memory};

fn set(memory: &mut Memory, kind: CellType, target: Cell, source: Source)
    requires target { CellFits kind target (length memory.old) }
    requires source { SourceFits kind source (length memory.old) }
    ensures { effect 0 (classic.Move kind target source) memory.old ≡ Ok memory.new }
{
    let value = source_value(memory, kind, source);
    memory.set_value(kind, target.first, value);
}

// Both are read before the first is written; where the cells share bits, the second write counts.
fn exchange(memory: &mut Memory, kind: CellType, one: Cell, other: Cell)
    requires one { CellFits kind one (length memory.old) }
    requires other { CellFits kind other (length memory.old) }
    ensures { effect 0 (classic.Exchange kind one other) memory.old ≡ Ok memory.new }
{
    let first = memory.word(kind, one.first);
    let second = memory.word(kind, other.first);
    memory.set_word(kind, one.first, second);
    memory.set_word(kind, other.first, first);
}

fn put_sum(
    memory: &mut Memory,
    line: u32,
    operation: SumOperation,
    kind: Arithmetic,
    target: Cell,
    x: i64,
    y: i64,
) -> Result<(), ClassicFault>
    requires { CellFits (arithmetic_type kind) target (length memory.old) }
    ensures { Does result (with_result line (arithmetic_type kind) target (sum_of operation x y) memory.old) memory.old memory.new }
{
    put(
        memory,
        line,
        kind.cell_type(),
        target,
        sum_of(operation, x, y),
    )
}

fn sum(
    memory: &mut Memory,
    line: u32,
    operation: SumOperation,
    kind: Arithmetic,
    target: Cell,
    source: Source,
) -> Result<(), ClassicFault>
    requires target { CellFits (arithmetic_type kind) target (length memory.old) }
    requires source { SourceFits (arithmetic_type kind) source (length memory.old) }
    ensures { Does result (effect line (classic.Sum operation kind target source) memory.old) memory.old memory.new }
{
    let x = memory.value(kind.cell_type(), target.first);
    let y = source_value(memory, kind.cell_type(), source);
    put_sum(memory, line, operation, kind, target, x, y)
}

fn put_product(
    memory: &mut Memory,
    line: u32,
    target: Cell,
    x: i64,
    y: i64,
) -> Result<(), ClassicFault>
    requires { CellFits cell_type.Integer target (length memory.old) }
    ensures { Does result (after_product line Mul target x y memory.old) memory.old memory.new }
{
    put(memory, line, CellType::Integer, target, product_of(x, y))
}

fn put_quotient(
    memory: &mut Memory,
    line: u32,
    target: Cell,
    x: i64,
    y: i64,
) -> Result<(), ClassicFault>
    requires { CellFits cell_type.Integer target (length memory.old) }
    ensures { Does result (after_product line Div target x y memory.old) memory.old memory.new }
{
    if y == 0 {
        return Err(ClassicFault::ZeroDivide { line });
    }
    put(memory, line, CellType::Integer, target, quotient_of(x, y))
}

fn put_product_or_quotient(
    memory: &mut Memory,
    line: u32,
    operation: ProductOperation,
    target: Cell,
    x: i64,
    y: i64,
) -> Result<(), ClassicFault>
    requires { CellFits cell_type.Integer target (length memory.old) }
    ensures { Does result (after_product line operation target x y memory.old) memory.old memory.new }
{
    match operation {
        ProductOperation::Mul => put_product(memory, line, target, x, y),
        ProductOperation::Div => put_quotient(memory, line, target, x, y),
    }
}

fn product(
    memory: &mut Memory,
    line: u32,
    operation: ProductOperation,
    target: Cell,
    source: Source,
) -> Result<(), ClassicFault>
    requires target { CellFits cell_type.Integer target (length memory.old) }
    requires source { SourceFits cell_type.Integer source (length memory.old) }
    ensures { Does result (effect line (classic.Product operation target source) memory.old) memory.old memory.new }
{
    let x = memory.value(CellType::Integer, target.first);
    let y = source_value(memory, CellType::Integer, source);
    put_product_or_quotient(memory, line, operation, target, x, y)
}

fn negate(
    memory: &mut Memory,
    line: u32,
    kind: Arithmetic,
    target: Cell,
) -> Result<(), ClassicFault>
    requires { CellFits (arithmetic_type kind) target (length memory.old) }
    ensures { Does result (effect line (classic.Neg kind target) memory.old) memory.old memory.new }
{
    let cells = kind.cell_type();
    let value = negative_of(memory.value(cells, target.first));
    put(memory, line, cells, target, value)
}

#[tactic(auto, using(crate::proofs::Words::word_below))]
fn invert(memory: &mut Memory, kind: Bitwise, target: Cell)
    requires { CellFits (bitwise_type kind) target (length memory.old) }
    ensures { effect 0 (classic.Not kind target) memory.old ≡ Ok memory.new }
{
    let cells = kind.cell_type();
    let word = other_bits(kind, memory.word(cells, target.first));
    memory.set_word(cells, target.first, word);
}

fn combine(
    memory: &mut Memory,
    operation: BitOperation,
    kind: Bitwise,
    target: Cell,
    source: Source,
)
    requires target { CellFits (bitwise_type kind) target (length memory.old) }
    requires source { SourceFits (bitwise_type kind) source (length memory.old) }
    ensures { effect 0 (classic.Bits operation kind target source) memory.old ≡ Ok memory.new }
{
    let cells = kind.cell_type();
    let x = memory.word(cells, target.first);
    let y = source_word(memory, cells, source);
    memory.set_word(cells, target.first, bits_together(operation, x, y));
}

fn convert(
    memory: &mut Memory,
    line: u32,
    kind: Bitwise,
    target: Cell,
    from: Bitwise,
    source: Cell,
) -> Result<(), ClassicFault>
    requires target { CellFits (bitwise_type kind) target (length memory.old) }
    requires source { CellFits (bitwise_type from) source (length memory.old) }
    ensures { Does result (effect line (classic.Convert kind target from source) memory.old) memory.old memory.new }
{
    let value = memory.value(from.cell_type(), source.first);
    put(
        memory,
        line,
        kind.cell_type(),
        target,
        if_in_type(kind, value),
    )
}

fn load(
    memory: &mut Memory,
    line: u32,
    kind: CellType,
    target: Cell,
    span: Span,
    index: Cell,
) -> Result<(), ClassicFault>
    requires few { length memory.old ≤ most_bits }
    requires target { CellFits kind target (length memory.old) }
    requires span { SpanFits kind span (length memory.old) }
    requires index { CellFits cell_type.Integer index (length memory.old) }
    ensures { Does result (effect line (classic.Load kind target span index) memory.old) memory.old memory.new }
{
    let index = memory.value(CellType::Integer, index.first);
    let cell = span_cell(line, kind, span, index)?;
    let value = memory.value(kind, cell.first);
    memory.set_value(kind, target.first, value);
    Ok(())
}

fn store(
    memory: &mut Memory,
    line: u32,
    kind: CellType,
    span: Span,
    index: Cell,
    source: Source,
) -> Result<(), ClassicFault>
    requires few { length memory.old ≤ most_bits }
    requires span { SpanFits kind span (length memory.old) }
    requires index { CellFits cell_type.Integer index (length memory.old) }
    requires source { SourceFits kind source (length memory.old) }
    ensures { Does result (effect line (classic.Store kind span index source) memory.old) memory.old memory.new }
{
    let index = memory.value(CellType::Integer, index.first);
    let cell = span_cell(line, kind, span, index)?;
    let value = source_value(memory, kind, source);
    memory.set_value(kind, cell.first, value);
    Ok(())
}

fn compare(
    memory: &mut Memory,
    comparison: Comparison,
    kind: CellType,
    target: Cell,
    left: Cell,
    right: Source,
)
    requires target { CellFits cell_type.Bit target (length memory.old) }
    requires left { CellFits kind left (length memory.old) }
    requires right { SourceFits kind right (length memory.old) }
    ensures { effect 0 (classic.Compare comparison kind target left right) memory.old ≡ Ok memory.new }
{
    let x = memory.value(kind, left.first);
    let y = source_value(memory, kind, right);
    let word = if compares(comparison, x, y) { 1 } else { 0 };
    memory.set_word(CellType::Bit, target.first, word);
}

// Does a classical instruction of this line.
pub(crate) fn apply(
    line: u32,
    instruction: Classic,
    memory: &mut Memory,
) -> Result<(), ClassicFault>
    requires few { length memory.old ≤ most_bits }
    requires fits { ClassicFits instruction (length memory.old) }
    ensures { Does result (effect line instruction memory.old) memory.old memory.new }
{
    match instruction {
        Classic::Move {
            kind,
            target,
            source,
        } => {
            set(memory, kind, target, source);
            Ok(())
        }
        Classic::Exchange { kind, one, other } => {
            exchange(memory, kind, one, other);
            Ok(())
        }
        Classic::Sum {
            operation,
            kind,
            target,
            source,
        } => sum(memory, line, operation, kind, target, source),
        Classic::Product {
            operation,
            target,
            source,
        } => product(memory, line, operation, target, source),
        Classic::Neg { kind, target } => negate(memory, line, kind, target),
        Classic::Not { kind, target } => {
            invert(memory, kind, target);
            Ok(())
        }
        Classic::Bits {
            operation,
            kind,
            target,
            source,
        } => {
            combine(memory, operation, kind, target, source);
            Ok(())
        }
        Classic::Convert {
            kind,
            target,
            from,
            source,
        } => convert(memory, line, kind, target, from, source),
        Classic::Load {
            kind,
            target,
            span,
            index,
        } => load(memory, line, kind, target, span, index),
        Classic::Store {
            kind,
            span,
            index,
            source,
        } => store(memory, line, kind, span, index, source),
        Classic::Compare {
            comparison,
            kind,
            target,
            left,
            right,
        } => {
            compare(memory, comparison, kind, target, left, right);
            Ok(())
        }
    }
}
