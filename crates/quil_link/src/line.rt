//! The lines of a program: each statement with its names resolved, its types checked and its operand worked out. Qubits are
//! those of the text.

ghost use Rattle.std.specs.Prelude.{◌≡◌, ℕ, ◌<◌, ◌^◌, [], ◌∷◌, ◌++◌, length, Ok, Err, IfOk, IfErr, IfSome};
ghost use Rattle.quil_code.specs.declared.load_fault.LoadFault.TheVariants.{OutOfMemory};
ghost use Rattle.quil_code.specs.Program.{ClassicFits, OutcomeFits};
ghost use Rattle.quil_link.specs.Built.{qubit_limit};
ghost use Rattle.quil_value.specs.Results.{each};
ghost use Rattle.quil_link.specs.Passes.{Loads};
ghost use Rattle.quil_link.specs.Types as types;
ghost use Rattle.quil_link.specs.Linked as linked;
ghost use Rattle.quil_link.specs.Steps.{IsLinked, AreLinked, OrWantsMemory};

use crate::gate::{Standard, gate_named, qubit_number};
use crate::operand::{cell_at, operand_at, span_named};
use crate::types::{
    cell_as, typed_bits, typed_comparison, typed_convert, typed_exchange, typed_load, typed_move,
    typed_neg, typed_not, typed_product, typed_store, typed_sum,
};
use crate::value_fault::valued;
use quil_code::{
    BitOperation, Cell, Classic, Comparison, Instruction, Line, LoadFault, ProductOperation,
    SumOperation,
};
use quil_memory::{CellType, Layout};
use quil_tree::{Gate, Item, Name, Operand, Qubit, Reference, Statement};
use std::alloc::Global;

// A classical instruction, if its operands have the types that it takes.
fn typed(line: u32, classic: Option<Classic>) -> Result<Instruction, LoadFault>
    ensures value { result ≡ linked.typed line classic }
    ensures fits { (bits : ℕ) → IfSome classic (λ c. ClassicFits c bits) → IfOk result (λ i. IsLinked i bits) }
{
    match classic {
        Some(classic) => Ok(Instruction::Classic(classic)),
        None => Err(LoadFault::TypeClash { line }),
    }
}

/// The number of a qubit, where there is one.
fn numbered_qubit(line: u32, qubit: &Qubit) -> Result<u32, LoadFault>
    ensures value { result ≡ linked.numbered_qubit line qubit.now }
    ensures below { IfOk result (λ q. q < qubit_limit) }
{
    match qubit_number(qubit) {
        Some(number) => Ok(number),
        None => Err(LoadFault::NotBuilt { line }),
    }
}

fn one_qubit(line: u32, qubits: &[Qubit]) -> Result<u32, LoadFault>
    ensures value { result ≡ linked.one_qubit line qubits.now }
    ensures below { IfOk result (λ q. q < qubit_limit) }
{
    match qubits {
        [qubit] => numbered_qubit(line, qubit),
        _ => Err(LoadFault::Arity { line }),
    }
}

fn two_qubits(line: u32, qubits: &[Qubit]) -> Result<(u32, u32), LoadFault>
    ensures value { result ≡ linked.two_qubits line qubits.now }
    ensures below { IfOk result (λ p. (p.0 < qubit_limit) × (p.1 < qubit_limit)) }
{
    match qubits {
        [control, target] => {
            let control = numbered_qubit(line, control)?;
            let target = numbered_qubit(line, target)?;
            Ok((control, target))
        }
        _ => Err(LoadFault::Arity { line }),
    }
}

fn linked_cnot(line: u32, qubits: &[Qubit]) -> Result<Instruction, LoadFault>
    ensures value { result ≡ linked.linked_cnot line qubits.now }
    ensures fits { (bits : ℕ) → IfOk result (λ i. IsLinked i bits) }
{
    let (control, target) = two_qubits(line, qubits)?;
    if control == target {
        return Err(LoadFault::RepeatedQubit { line });
    }
    Ok(Instruction::Cnot(control, target))
}

fn linked_gate(line: u32, gate: &Gate) -> Result<Instruction, LoadFault>
    ensures value { result ≡ linked.linked_gate line gate.now }
    ensures fits { (bits : ℕ) → IfOk result (λ i. IsLinked i bits) }
{
    let qubits = gate.qubits.as_slice();
    match gate_named(gate.name.text.as_bytes()) {
        Some(Standard::X) => Ok(Instruction::X(one_qubit(line, qubits)?)),
        Some(Standard::H) => Ok(Instruction::H(one_qubit(line, qubits)?)),
        Some(Standard::Cnot) => linked_cnot(line, qubits),
        None => Err(LoadFault::NotBuilt { line }),
    }
}

// The bit that a measurement is written to.
fn target_bit(
    alloc: Global,
    layout: &Layout,
    line: u32,
    target: &Option<Reference>,
) -> Result<Option<Cell>, LoadFault>
    ensures value { Loads result (linked.target_bit layout.now line target.now) }
    ensures fits { IfOk result (λ b. OutcomeFits b layout.now.bits) }
{
    let Some(reference) = target else {
        return Ok(None);
    };
    let cell = cell_at(alloc, layout, reference)?;
    match cell_as(CellType::Bit, cell) {
        Some(bit) => Ok(Some(bit)),
        None => Err(LoadFault::TypeClash { line }),
    }
}

fn linked_measure(
    alloc: Global,
    layout: &Layout,
    line: u32,
    qubit: &Qubit,
    target: &Option<Reference>,
) -> Result<Instruction, LoadFault>
    ensures value { Loads result (linked.linked_measure layout.now line qubit.now target.now) }
    ensures fits { IfOk result (λ i. IsLinked i layout.now.bits) }
{
    let bit = target_bit(alloc, layout, line, target)?;
    let number = numbered_qubit(line, qubit)?;
    Ok(Instruction::Measure(number, bit))
}

fn linked_reset(line: u32, qubit: &Option<Qubit>) -> Result<Instruction, LoadFault>
    ensures value { result ≡ linked.linked_reset line qubit.now }
    ensures fits { (bits : ℕ) → IfOk result (λ i. IsLinked i bits) }
{
    match qubit {
        Some(qubit) => Ok(Instruction::Reset(Some(numbered_qubit(line, qubit)?))),
        None => Ok(Instruction::Reset(None)),
    }
}

fn linked_not(
    alloc: Global,
    layout: &Layout,
    line: u32,
    target: &Reference,
) -> Result<Instruction, LoadFault>
    ensures value { Loads result (linked.on_cell layout.now line types.typed_not target.now) }
    ensures fits { IfOk result (λ i. IsLinked i layout.now.bits) }
{
    let target = cell_at(alloc, layout, target)?;
    typed(line, typed_not(target))
}

fn linked_neg(
    alloc: Global,
    layout: &Layout,
    line: u32,
    target: &Reference,
) -> Result<Instruction, LoadFault>
    ensures value { Loads result (linked.on_cell layout.now line types.typed_neg target.now) }
    ensures fits { IfOk result (λ i. IsLinked i layout.now.bits) }
{
    let target = cell_at(alloc, layout, target)?;
    typed(line, typed_neg(target))
}

fn linked_exchange(
    alloc: Global,
    layout: &Layout,
    line: u32,
    one: &Reference,
    other: &Reference,
) -> Result<Instruction, LoadFault>
    ensures value { Loads result (linked.on_cells layout.now line types.typed_exchange one.now other.now) }
    ensures fits { IfOk result (λ i. IsLinked i layout.now.bits) }
{
    let one = cell_at(alloc, layout, one)?;
    let other = cell_at(alloc, layout, other)?;
    typed(line, typed_exchange(one, other))
}

fn linked_convert(
    alloc: Global,
    layout: &Layout,
    line: u32,
    target: &Reference,
    source: &Reference,
) -> Result<Instruction, LoadFault>
    ensures value { Loads result (linked.on_cells layout.now line types.typed_convert target.now source.now) }
    ensures fits { IfOk result (λ i. IsLinked i layout.now.bits) }
{
    let target = cell_at(alloc, layout, target)?;
    let source = cell_at(alloc, layout, source)?;
    typed(line, typed_convert(target, source))
}

fn linked_move(
    alloc: Global,
    layout: &Layout,
    line: u32,
    target: &Reference,
    source: &Operand,
) -> Result<Instruction, LoadFault>
    ensures value { Loads result (linked.on_operand layout.now line types.typed_move target.now source.now) }
    ensures fits { IfOk result (λ i. IsLinked i layout.now.bits) }
{
    let target = cell_at(alloc, layout, target)?;
    let source = operand_at(alloc, layout, source)?;
    valued(&source, typed(line, typed_move(target, &source)))
}

fn linked_sum(
    alloc: Global,
    layout: &Layout,
    line: u32,
    operation: SumOperation,
    target: &Reference,
    source: &Operand,
) -> Result<Instruction, LoadFault>
    ensures value { Loads result (linked.on_operand layout.now line (types.typed_sum operation) target.now source.now) }
    ensures fits { IfOk result (λ i. IsLinked i layout.now.bits) }
{
    let target = cell_at(alloc, layout, target)?;
    let source = operand_at(alloc, layout, source)?;
    valued(&source, typed(line, typed_sum(operation, target, &source)))
}

fn linked_product(
    alloc: Global,
    layout: &Layout,
    line: u32,
    operation: ProductOperation,
    target: &Reference,
    source: &Operand,
) -> Result<Instruction, LoadFault>
    ensures value { Loads result (linked.on_operand layout.now line (types.typed_product operation) target.now source.now) }
    ensures fits { IfOk result (λ i. IsLinked i layout.now.bits) }
{
    let target = cell_at(alloc, layout, target)?;
    let source = operand_at(alloc, layout, source)?;
    valued(
        &source,
        typed(line, typed_product(operation, target, &source)),
    )
}

fn linked_bits(
    alloc: Global,
    layout: &Layout,
    line: u32,
    operation: BitOperation,
    target: &Reference,
    source: &Operand,
) -> Result<Instruction, LoadFault>
    ensures value { Loads result (linked.on_operand layout.now line (types.typed_bits operation) target.now source.now) }
    ensures fits { IfOk result (λ i. IsLinked i layout.now.bits) }
{
    let target = cell_at(alloc, layout, target)?;
    let source = operand_at(alloc, layout, source)?;
    valued(&source, typed(line, typed_bits(operation, target, &source)))
}

fn linked_load(
    alloc: Global,
    layout: &Layout,
    line: u32,
    target: &Reference,
    region: &Name,
    index: &Reference,
) -> Result<Instruction, LoadFault>
    ensures value { Loads result (linked.linked_load layout.now line target.now region.now.text index.now) }
    ensures fits { IfOk result (λ i. IsLinked i layout.now.bits) }
{
    let target = cell_at(alloc, layout, target)?;
    let span = span_named(alloc, layout, region.text.as_bytes())?;
    let index = cell_at(alloc, layout, index)?;
    typed(line, typed_load(target, span, index))
}

fn linked_store(
    alloc: Global,
    layout: &Layout,
    line: u32,
    region: &Name,
    index: &Reference,
    source: &Operand,
) -> Result<Instruction, LoadFault>
    ensures value { Loads result (linked.linked_store layout.now line region.now.text index.now source.now) }
    ensures fits { IfOk result (λ i. IsLinked i layout.now.bits) }
{
    let span = span_named(alloc, layout, region.text.as_bytes())?;
    let index = cell_at(alloc, layout, index)?;
    let source = operand_at(alloc, layout, source)?;
    valued(&source, typed(line, typed_store(span, index, &source)))
}

fn linked_comparison(
    alloc: Global,
    layout: &Layout,
    line: u32,
    comparison: Comparison,
    target: &Reference,
    left: &Reference,
    right: &Operand,
) -> Result<Instruction, LoadFault>
    ensures value { Loads result (linked.linked_comparison layout.now line comparison target.now left.now right.now) }
    ensures fits { IfOk result (λ i. IsLinked i layout.now.bits) }
{
    let target = cell_at(alloc, layout, target)?;
    let left = cell_at(alloc, layout, left)?;
    let right = operand_at(alloc, layout, right)?;
    valued(
        &right,
        typed(line, typed_comparison(comparison, target, left, &right)),
    )
}

// What a statement of this line becomes.
fn linked_statement(
    alloc: Global,
    layout: &Layout,
    line: u32,
    statement: &Statement,
) -> Result<Instruction, LoadFault>
    ensures value { Loads result (linked.linked_statement layout.now line statement.now) }
    ensures fits { IfOk result (λ i. IsLinked i layout.now.bits) }
{
    match statement {
        Statement::Gate(gate) => linked_gate(line, gate),
        Statement::Measure(qubit, target) => linked_measure(alloc, layout, line, qubit, target),
        Statement::Reset(qubit) => linked_reset(line, qubit),
        Statement::Wait => Ok(Instruction::Wait),
        Statement::Nop => Ok(Instruction::Nop),
        Statement::Halt => Ok(Instruction::Halt),
        Statement::Pragma(_, _) => Ok(Instruction::Passive),
        Statement::Label(_)
        | Statement::Jump(_)
        | Statement::JumpWhen(_, _)
        | Statement::JumpUnless(_, _) => Err(LoadFault::NotBuilt { line }),
        Statement::Not(a) => linked_not(alloc, layout, line, a),
        Statement::Neg(a) => linked_neg(alloc, layout, line, a),
        Statement::Exchange(a, b) => linked_exchange(alloc, layout, line, a, b),
        Statement::Convert(a, b) => linked_convert(alloc, layout, line, a, b),
        Statement::Move(a, x) => linked_move(alloc, layout, line, a, x),
        Statement::Add(a, x) => linked_sum(alloc, layout, line, SumOperation::Add, a, x),
        Statement::Sub(a, x) => linked_sum(alloc, layout, line, SumOperation::Sub, a, x),
        Statement::Mul(a, x) => linked_product(alloc, layout, line, ProductOperation::Mul, a, x),
        Statement::Div(a, x) => linked_product(alloc, layout, line, ProductOperation::Div, a, x),
        Statement::And(a, x) => linked_bits(alloc, layout, line, BitOperation::And, a, x),
        Statement::Ior(a, x) => linked_bits(alloc, layout, line, BitOperation::Ior, a, x),
        Statement::Xor(a, x) => linked_bits(alloc, layout, line, BitOperation::Xor, a, x),
        Statement::Load(a, name, n) => linked_load(alloc, layout, line, a, name, n),
        Statement::Store(name, n, x) => linked_store(alloc, layout, line, name, n, x),
        Statement::Eq(r, a, x) => linked_comparison(alloc, layout, line, Comparison::Eq, r, a, x),
        Statement::Gt(r, a, x) => linked_comparison(alloc, layout, line, Comparison::Gt, r, a, x),
        Statement::Ge(r, a, x) => linked_comparison(alloc, layout, line, Comparison::Ge, r, a, x),
        Statement::Lt(r, a, x) => linked_comparison(alloc, layout, line, Comparison::Lt, r, a, x),
        Statement::Le(r, a, x) => linked_comparison(alloc, layout, line, Comparison::Le, r, a, x),
    }
}

// What an item becomes.
fn linked_item(alloc: Global, layout: &Layout, item: &Item) -> Result<Line, LoadFault>
    ensures value { Loads result (linked.linked layout.now item.now) }
    ensures fits { IfOk result (λ l. IsLinked l.instruction layout.now.bits) }
{
    match item {
        Item::Declare(declaration) => Ok(Line {
            number: declaration.place.line,
            instruction: Instruction::Passive,
        }),
        Item::DefGate(definition) => Err(LoadFault::NotBuilt {
            line: definition.place.line,
        }),
        Item::DefCircuit(definition) => Err(LoadFault::NotBuilt {
            line: definition.place.line,
        }),
        Item::Plain(line) => {
            let number = line.place.line;
            let instruction = linked_statement(alloc, layout, number, &line.statement)?;
            Ok(Line {
                number,
                instruction,
            })
        }
    }
}

// Adds a line, if fewer than 2^32 are there then.
fn with_line(mut lines: Vec<Line>, line: Line) -> Result<Vec<Line>, LoadFault>
    ensures ok { IfOk result (λ all. (all.items ≡ lines.items ++ line ∷ []) × (length all.items < 2 ^ 32)) }
    ensures err { IfErr result (λ f. f ≡ OutOfMemory) }
{
    if lines.len() >= u32::MAX as usize || lines.push(line).is_err() {
        return Err(LoadFault::OutOfMemory);
    }
    Ok(lines)
}

/// What the items become, or the first fault.
pub(crate) fn linked_items(
    alloc: Global,
    layout: &Layout,
    mut items: &[Item],
) -> Result<Vec<Line>, LoadFault>
    ensures ok { IfOk result (λ lines. each (linked.linked layout.now) items.entry.now ≡ Ok lines.items) }
    ensures err { IfErr result (λ f. OrWantsMemory f (each (linked.linked layout.now) items.entry.now ≡ Err f)) }
    ensures fits { IfOk result (λ lines. AreLinked lines.items layout.now.bits) }
    ensures few { IfOk result (λ lines. length lines.items < 2 ^ 32) }
{
    let mut lines = Vec::new(alloc);
    while let [item, rest @ ..] = items {
        let line = linked_item(alloc, layout, item)?;
        lines = with_line(lines, line)?;
        items = rest;
    }
    Ok(lines)
}
