//! The types of classical instructions: which operands an instruction takes, and what it is then.

ghost use Rattle.std.specs.Prelude.{◌≡◌, ℕ, IfSome};
ghost use Rattle.quil_memory.specs.CellTypes.{InType};
ghost use Rattle.quil_code.specs.Program.{SourceFits, ClassicFits};
ghost use Rattle.quil_link.specs.Types as types;
ghost use Rattle.quil_link.specs.Types.{is_type, as_arithmetic, as_bitwise, literal_as};
ghost use Rattle.quil_link.specs.Steps.{CellWithin, SpanWithin, OperandWithin};

use crate::operand::{SecondOperand, TypedCell, TypedSpan};
use quil_code::{
    Arithmetic, BitOperation, Bitwise, Cell, Classic, Comparison, ProductOperation, Source,
    SumOperation,
};
use quil_memory::CellType;
use quil_value::{Stop, Value};

fn is_type(kind: CellType, other: CellType) -> bool
    ensures { result ≡ is_type kind other }
{
    kind == other
}

fn as_arithmetic(kind: CellType) -> Option<Arithmetic>
    ensures { result ≡ as_arithmetic kind }
{
    match kind {
        CellType::Integer => Some(Arithmetic::Integer),
        CellType::Real => Some(Arithmetic::Real),
        CellType::Bit | CellType::Octet => None,
    }
}

fn as_bitwise(kind: CellType) -> Option<Bitwise>
    ensures { result ≡ as_bitwise kind }
{
    match kind {
        CellType::Bit => Some(Bitwise::Bit),
        CellType::Octet => Some(Bitwise::Octet),
        CellType::Integer => Some(Bitwise::Integer),
        CellType::Real => None,
    }
}

/// The cell, if it has this type.
pub(crate) fn cell_as(kind: CellType, cell: TypedCell) -> Option<Cell>
    ensures { result ≡ types.cell_as kind cell }
{
    if is_type(kind, cell.kind) {
        Some(cell.cell)
    } else {
        None
    }
}

// The number, if it is a literal of this type.
fn literal_as(kind: CellType, number: i128) -> Option<i64>
    ensures { result ≡ literal_as kind number }
{
    let (least, greatest) = match kind {
        CellType::Bit => (0, 1),
        CellType::Octet => (0, 255),
        CellType::Integer => (i64::MIN, i64::MAX),
        CellType::Real => (0, 0),
    };
    let literal = i64::try_from(number).ok()?;
    if least <= literal && literal <= greatest {
        Some(literal)
    } else {
        None
    }
}

// The value of an expression, if it is in this type.
fn value_as(kind: CellType, value: &Value) -> Option<i64>
    ensures { result ≡ types.value_as kind value.now }
{
    match kind {
        CellType::Real => value.eighths(),
        CellType::Bit | CellType::Octet | CellType::Integer => literal_as(kind, value.whole()?),
    }
}

// The value of an expression, if it is in this type. One without a value is refused behind the types: until then 0 stands for it.
fn formula_as(kind: CellType, value: &Result<Value, Stop>) -> Option<i64>
    ensures value { result ≡ types.formula_as kind value.now }
    ensures fits { IfSome result (λ z. InType kind z) }
{
    match value {
        Ok(value) => value_as(kind, value),
        Err(_) => Some(0),
    }
}

// The operand, if it has this type.
fn source_as(kind: CellType, operand: &SecondOperand) -> Option<Source>
    ensures value { result ≡ types.source_as kind operand.now }
    ensures fits { (bits : ℕ) → OperandWithin operand.now bits → IfSome result (λ s. SourceFits kind s bits) }
{
    match operand {
        SecondOperand::Cell(cell) => Some(Source::FromCell(cell_as(kind, *cell)?)),
        SecondOperand::Number(number) => Some(Source::Literal(literal_as(kind, *number)?)),
        SecondOperand::Formula(_, value) => Some(Source::Literal(formula_as(kind, value)?)),
    }
}

pub(crate) fn typed_move(target: TypedCell, source: &SecondOperand) -> Option<Classic>
    ensures value { result ≡ types.typed_move target source.now }
    ensures fits { (bits : ℕ) → CellWithin target bits → OperandWithin source.now bits → IfSome result (λ c. ClassicFits c bits) }
{
    let kind = target.kind;
    let source = source_as(kind, source)?;
    Some(Classic::Move {
        kind,
        target: target.cell,
        source,
    })
}

pub(crate) fn typed_exchange(one: TypedCell, other: TypedCell) -> Option<Classic>
    ensures value { result ≡ types.typed_exchange one other }
    ensures fits { (bits : ℕ) → CellWithin one bits → CellWithin other bits → IfSome result (λ c. ClassicFits c bits) }
{
    let kind = one.kind;
    let other = cell_as(kind, other)?;
    Some(Classic::Exchange {
        kind,
        one: one.cell,
        other,
    })
}

pub(crate) fn typed_sum(
    operation: SumOperation,
    target: TypedCell,
    source: &SecondOperand,
) -> Option<Classic>
    ensures value { result ≡ types.typed_sum operation target source.now }
    ensures fits { (bits : ℕ) → CellWithin target bits → OperandWithin source.now bits → IfSome result (λ c. ClassicFits c bits) }
{
    let kind = as_arithmetic(target.kind)?;
    let source = source_as(target.kind, source)?;
    Some(Classic::Sum {
        operation,
        kind,
        target: target.cell,
        source,
    })
}

pub(crate) fn typed_product(
    operation: ProductOperation,
    target: TypedCell,
    source: &SecondOperand,
) -> Option<Classic>
    ensures value { result ≡ types.typed_product operation target source.now }
    ensures fits { (bits : ℕ) → CellWithin target bits → OperandWithin source.now bits → IfSome result (λ c. ClassicFits c bits) }
{
    let target = cell_as(CellType::Integer, target)?;
    let source = source_as(CellType::Integer, source)?;
    Some(Classic::Product {
        operation,
        target,
        source,
    })
}

pub(crate) fn typed_neg(target: TypedCell) -> Option<Classic>
    ensures value { result ≡ types.typed_neg target }
    ensures fits { (bits : ℕ) → CellWithin target bits → IfSome result (λ c. ClassicFits c bits) }
{
    let kind = as_arithmetic(target.kind)?;
    Some(Classic::Neg {
        kind,
        target: target.cell,
    })
}

pub(crate) fn typed_not(target: TypedCell) -> Option<Classic>
    ensures value { result ≡ types.typed_not target }
    ensures fits { (bits : ℕ) → CellWithin target bits → IfSome result (λ c. ClassicFits c bits) }
{
    let kind = as_bitwise(target.kind)?;
    Some(Classic::Not {
        kind,
        target: target.cell,
    })
}

pub(crate) fn typed_bits(
    operation: BitOperation,
    target: TypedCell,
    source: &SecondOperand,
) -> Option<Classic>
    ensures value { result ≡ types.typed_bits operation target source.now }
    ensures fits { (bits : ℕ) → CellWithin target bits → OperandWithin source.now bits → IfSome result (λ c. ClassicFits c bits) }
{
    let kind = as_bitwise(target.kind)?;
    let source = source_as(target.kind, source)?;
    Some(Classic::Bits {
        operation,
        kind,
        target: target.cell,
        source,
    })
}

pub(crate) fn typed_convert(target: TypedCell, source: TypedCell) -> Option<Classic>
    ensures value { result ≡ types.typed_convert target source }
    ensures fits { (bits : ℕ) → CellWithin target bits → CellWithin source bits → IfSome result (λ c. ClassicFits c bits) }
{
    let kind = as_bitwise(target.kind)?;
    let from = as_bitwise(source.kind)?;
    Some(Classic::Convert {
        kind,
        target: target.cell,
        from,
        source: source.cell,
    })
}

pub(crate) fn typed_load(target: TypedCell, span: TypedSpan, index: TypedCell) -> Option<Classic>
    ensures value { result ≡ types.typed_load target span index }
    ensures fits { (bits : ℕ) → CellWithin target bits → SpanWithin span bits → CellWithin index bits → IfSome result (λ c. ClassicFits c bits) }
{
    let index = cell_as(CellType::Integer, index)?;
    if is_type(target.kind, span.kind) {
        Some(Classic::Load {
            kind: target.kind,
            target: target.cell,
            span: span.span,
            index,
        })
    } else {
        None
    }
}

pub(crate) fn typed_store(
    span: TypedSpan,
    index: TypedCell,
    source: &SecondOperand,
) -> Option<Classic>
    ensures value { result ≡ types.typed_store span index source.now }
    ensures fits { (bits : ℕ) → SpanWithin span bits → CellWithin index bits → OperandWithin source.now bits → IfSome result (λ c. ClassicFits c bits) }
{
    let index = cell_as(CellType::Integer, index)?;
    let source = source_as(span.kind, source)?;
    Some(Classic::Store {
        kind: span.kind,
        span: span.span,
        index,
        source,
    })
}

pub(crate) fn typed_comparison(
    comparison: Comparison,
    target: TypedCell,
    left: TypedCell,
    right: &SecondOperand,
) -> Option<Classic>
    ensures value { result ≡ types.typed_comparison comparison target left right.now }
    ensures fits { (bits : ℕ) → CellWithin target bits → CellWithin left bits → OperandWithin right.now bits → IfSome result (λ c. ClassicFits c bits) }
{
    let target = cell_as(CellType::Bit, target)?;
    let right = source_as(left.kind, right)?;
    Some(Classic::Compare {
        comparison,
        kind: left.kind,
        target,
        left: left.cell,
        right,
    })
}
