//! The cells and regions that the operands of an instruction name, and the numbers and values that they are.

ghost use Rattle.std.specs.Prelude.{◌≡◌, ℕ, ◌≤◌, IfOk, IfSome};
ghost use Rattle.quil_memory.specs.Layout.{most_bits};
ghost use Rattle.quil_link.specs.Passes.{Loads};
ghost use Rattle.quil_link.specs.Cells.{found_span, span_named, cell_in, cell_at, literal_value, formula_value, operand_at};
ghost use Rattle.quil_link.specs.Steps.{CellWithin, SpanWithin, OperandWithin};

use quil_code::{Cell, LoadFault, Span};
use quil_memory::{CellType, Layout, Name};
use quil_tree::{Formula, Operand, Place, Reference, Sign};
use quil_value::{Stop, Value, WorkFault, eval};
use std::alloc::{AllocError, Global};

/// A cell and its type.
#[derive(Clone, Copy, Debug, PartialEq, Eq)]
pub(crate) struct TypedCell {
    pub(crate) kind: CellType,
    pub(crate) cell: Cell,
}

/// A region and the type of its cells.
#[derive(Clone, Copy, Debug, PartialEq, Eq)]
pub(crate) struct TypedSpan {
    pub(crate) kind: CellType,
    pub(crate) span: Span,
}

/// The second operand of an instruction: a cell, a whole number, or an expression that was worked out.
#[derive(Clone, Copy, Debug, PartialEq, Eq)]
pub(crate) enum SecondOperand {
    Cell(TypedCell),
    /// A whole number, which may be outside the 64 bits of any type.
    Number(i128),
    /// What an expression comes to, and where it begins.
    Formula(Place, Result<Value, Stop>),
}

// The region of a name.
fn found_span(layout: &Layout, name: &[u8]) -> Option<TypedSpan>
    ensures value { result ≡ found_span layout.now.regions name.now }
    ensures within { IfSome result (λ s. SpanWithin s layout.now.bits × (layout.now.bits ≤ most_bits)) }
{
    // All regions end within these bits.
    let _bits = layout.bits();
    let number = layout.find(name)?;
    let region = layout.region(number);
    Some(TypedSpan {
        kind: region.kind,
        span: Span {
            region: number,
            first: region.first,
            length: region.length,
        },
    })
}

/// The region of a name, or UnknownRegion.
pub(crate) fn span_named(
    alloc: Global,
    layout: &Layout,
    name: &[u8],
) -> Result<TypedSpan, LoadFault>
    ensures value { Loads result (span_named layout.now name.now) }
    ensures within { IfOk result (λ s. SpanWithin s layout.now.bits × (layout.now.bits ≤ most_bits)) }
{
    let Some(span) = found_span(layout, name) else {
        let word = Name::new(alloc, name)?;
        return Err(LoadFault::UnknownRegion { word });
    };
    Ok(span)
}

// The cell of a region that an address in it names.
fn cell_in(alloc: Global, reference: &Reference, span: TypedSpan) -> Result<TypedCell, LoadFault>
    requires { SpanWithin span most_bits }
    ensures value { Loads result (cell_in reference.now span) }
    ensures within { (bits : ℕ) → SpanWithin span bits → IfOk result (λ c. CellWithin c bits) }
{
    let index = reference.address.index.value;
    let TypedSpan { kind, span } = span;
    if index >= span.length {
        let word = Name::new(alloc, reference.address.region.as_bytes())?;
        return Err(LoadFault::OutOfRange {
            index,
            length: span.length,
            word,
        });
    }
    let first = span.first + index as u32 * kind.size();
    Ok(TypedCell {
        kind,
        cell: Cell { first },
    })
}

/// The cell of an address, or UnknownRegion or OutOfRange.
pub(crate) fn cell_at(
    alloc: Global,
    layout: &Layout,
    reference: &Reference,
) -> Result<TypedCell, LoadFault>
    ensures value { Loads result (cell_at layout.now reference.now) }
    ensures within { IfOk result (λ c. CellWithin c layout.now.bits) }
{
    let span = span_named(alloc, layout, reference.address.region.as_bytes())?;
    cell_in(alloc, reference, span)
}

fn literal_value(sign: Option<Sign>, value: u64) -> i128
    ensures { result ≡ literal_value sign value }
{
    match sign {
        Some(Sign::Minus) => -i128::from(value),
        Some(Sign::Plus) | None => i128::from(value),
    }
}

// What an expression without parameters comes to.
fn formula_value(alloc: Global, formula: &Formula) -> Result<Result<Value, Stop>, AllocError>
    ensures { IfOk result (λ r. r ≡ formula_value formula.now) }
{
    // These are the steps of a tree.
    let _steps = formula.expr.steps();
    match eval(alloc, &formula.expr, &[]) {
        Ok(value) => Ok(Ok(value)),
        Err(WorkFault::Stop(stop)) => Ok(Err(stop)),
        Err(WorkFault::OutOfMemory) => Err(AllocError),
    }
}

/// A second operand of an instruction.
pub(crate) fn operand_at(
    alloc: Global,
    layout: &Layout,
    operand: &Operand,
) -> Result<SecondOperand, LoadFault>
    ensures value { Loads result (operand_at layout.now operand.now) }
    ensures within { IfOk result (λ t. OperandWithin t layout.now.bits) }
{
    match operand {
        Operand::Reference(reference) => {
            let cell = cell_at(alloc, layout, reference)?;
            Ok(SecondOperand::Cell(cell))
        }
        Operand::Literal(_, sign, number) => Ok(SecondOperand::Number(literal_value(
            *sign,
            number.value,
        ))),
        Operand::Formula(formula) => {
            let value = formula_value(alloc, formula)?;
            Ok(SecondOperand::Formula(formula.place, value))
        }
    }
}
