//! Each instruction on a memory of three INTEGERs, by a table of rows `instruction : memory => memory` or `.. => fault`.

ghost use Rattle.std.specs.Prelude.{◌≡◌, ◌+◌, ◌≤◌, length, IfSome, IfOk};
ghost use Rattle.quil_memory.specs.CellTypes.{size, InType};
ghost use Rattle.quil_code.specs.Operands.{arithmetic_type, bitwise_type};
ghost use Rattle.quil_code.specs.Program.{CellFits, SourceFits, SpanFits, ClassicFits};

use crate::apply::apply;
use quil_code::{
    Arithmetic, BitOperation, Bitwise, Cell, Classic, ClassicFault, Comparison, Fault,
    ProductOperation, Source, Span, SumOperation,
};
use quil_memory::{CellType, Claim, Layout, LayoutFault, Memory, Name, layout};
use std::alloc::{AllocError, Global};
use std::test::*;

fn kind(word: &str) -> Option<CellType> {
    match word {
        "BIT" => Some(CellType::Bit),
        "OCTET" => Some(CellType::Octet),
        "INTEGER" => Some(CellType::Integer),
        "REAL" => Some(CellType::Real),
        _ => None,
    }
}

fn arithmetic(word: &str) -> Option<Arithmetic> {
    match word {
        "INTEGER" => Some(Arithmetic::Integer),
        "REAL" => Some(Arithmetic::Real),
        _ => None,
    }
}

fn bitwise(word: &str) -> Option<Bitwise> {
    match word {
        "BIT" => Some(Bitwise::Bit),
        "OCTET" => Some(Bitwise::Octet),
        "INTEGER" => Some(Bitwise::Integer),
        _ => None,
    }
}

// A cell, told by its first bit.
fn cell(kind: CellType, word: &str) -> Option<Cell>
    ensures { IfSome result (λ c. CellFits kind c 192) }
{
    let first: u32 = word.parse().ok()?;
    if first > 192 - kind.size() {
        return None;
    }
    Some(Cell { first })
}

// `#` and a literal, or a cell.
fn source(kind: CellType, word: &str) -> Option<Source>
    ensures { IfSome result (λ s. SourceFits kind s 192) }
{
    let Some(digits) = word.strip_prefix("#") else {
        return Some(Source::FromCell(cell(kind, word)?));
    };
    let value: i64 = digits.parse().ok()?;
    let within = match kind {
        CellType::Bit => 0 <= value && value <= 1,
        CellType::Octet => 0 <= value && value <= 255,
        CellType::Integer | CellType::Real => true,
    };
    if !within {
        return None;
    }
    Some(Source::Literal(value))
}

// `region/first/length`.
fn span(kind: CellType, word: &str) -> Option<Span>
    ensures { IfSome result (λ s. SpanFits kind s 192) }
{
    let (region, rest) = word.split_once("/")?;
    let (first, length) = rest.split_once("/")?;
    let first: u32 = first.parse().ok()?;
    let length: u64 = length.parse().ok()?;
    if first > 192 || length > 192 || u64::from(first) + length * u64::from(kind.size()) > 192 {
        return None;
    }
    Some(Span {
        region: region.parse().ok()?,
        first,
        length,
    })
}

fn numeric(name: &str, a: &str, b: &str, c: &str) -> Option<Classic>
    ensures { IfSome result (λ i. ClassicFits i 192) }
{
    let operation = match name {
        "ADD" => SumOperation::Add,
        "SUB" => SumOperation::Sub,
        _ => return None,
    };
    let kind = arithmetic(a)?;
    let target = cell(kind.cell_type(), b)?;
    let source = source(kind.cell_type(), c)?;
    Some(Classic::Sum {
        operation,
        kind,
        target,
        source,
    })
}

fn product(name: &str, a: &str, b: &str) -> Option<Classic>
    ensures { IfSome result (λ i. ClassicFits i 192) }
{
    let operation = match name {
        "MUL" => ProductOperation::Mul,
        "DIV" => ProductOperation::Div,
        _ => return None,
    };
    let target = cell(CellType::Integer, a)?;
    let source = source(CellType::Integer, b)?;
    Some(Classic::Product {
        operation,
        target,
        source,
    })
}

fn bits(name: &str, a: &str, b: &str, c: &str) -> Option<Classic>
    ensures { IfSome result (λ i. ClassicFits i 192) }
{
    let operation = match name {
        "AND" => BitOperation::And,
        "IOR" => BitOperation::Ior,
        "XOR" => BitOperation::Xor,
        _ => return None,
    };
    let kind = bitwise(a)?;
    let target = cell(kind.cell_type(), b)?;
    let source = source(kind.cell_type(), c)?;
    Some(Classic::Bits {
        operation,
        kind,
        target,
        source,
    })
}

fn comparison(name: &str, a: &str, b: &str, c: &str, d: &str) -> Option<Classic>
    ensures { IfSome result (λ i. ClassicFits i 192) }
{
    let comparison = match name {
        "EQ" => Comparison::Eq,
        "GT" => Comparison::Gt,
        "GE" => Comparison::Ge,
        "LT" => Comparison::Lt,
        "LE" => Comparison::Le,
        _ => return None,
    };
    let target = cell(CellType::Bit, a)?;
    let kind = kind(b)?;
    let left = cell(kind, c)?;
    let right = source(kind, d)?;
    Some(Classic::Compare {
        comparison,
        kind,
        target,
        left,
        right,
    })
}

fn copy(name: &str, a: &str, b: &str, c: &str, d: &str) -> Option<Classic>
    ensures { IfSome result (λ i. ClassicFits i 192) }
{
    if name == "CONVERT" {
        let kind = bitwise(a)?;
        let from = bitwise(c)?;
        let target = cell(kind.cell_type(), b)?;
        let source = cell(from.cell_type(), d)?;
        return Some(Classic::Convert {
            kind,
            target,
            from,
            source,
        });
    }
    let kind = kind(a)?;
    if name == "MOVE" {
        let target = cell(kind, b)?;
        let source = source(kind, c)?;
        return Some(Classic::Move {
            kind,
            target,
            source,
        });
    }
    if name == "EXCHANGE" {
        let one = cell(kind, b)?;
        let other = cell(kind, c)?;
        return Some(Classic::Exchange { kind, one, other });
    }
    None
}

fn indexed(name: &str, a: &str, b: &str, c: &str, d: &str) -> Option<Classic>
    ensures { IfSome result (λ i. ClassicFits i 192) }
{
    let kind = kind(a)?;
    if name == "LOAD" {
        let target = cell(kind, b)?;
        let span = span(kind, c)?;
        let index = cell(CellType::Integer, d)?;
        return Some(Classic::Load {
            kind,
            target,
            span,
            index,
        });
    }
    if name == "STORE" {
        let span = span(kind, b)?;
        let index = cell(CellType::Integer, c)?;
        let source = source(kind, d)?;
        return Some(Classic::Store {
            kind,
            span,
            index,
            source,
        });
    }
    None
}

fn sole(name: &str, a: &str, b: &str) -> Option<Classic>
    ensures { IfSome result (λ i. ClassicFits i 192) }
{
    if name == "NEG" {
        let kind = arithmetic(a)?;
        let target = cell(kind.cell_type(), b)?;
        return Some(Classic::Neg { kind, target });
    }
    if name == "NOT" {
        let kind = bitwise(a)?;
        let target = cell(kind.cell_type(), b)?;
        return Some(Classic::Not { kind, target });
    }
    None
}

// The words of an instruction: its name and its operands, the types among them in front of the cells that they are of.
fn instruction(text: &str) -> Option<Classic>
    ensures { IfSome result (λ i. ClassicFits i 192) }
{
    let mut words = text.split(' ');
    let name = words.next().unwrap_or("");
    let a = words.next().unwrap_or("");
    let b = words.next().unwrap_or("");
    let c = words.next().unwrap_or("");
    let d = words.next().unwrap_or("");
    match name {
        "ADD" | "SUB" => numeric(name, a, b, c),
        "MUL" | "DIV" => product(name, a, b),
        "AND" | "IOR" | "XOR" => bits(name, a, b, c),
        "EQ" | "GT" | "GE" | "LT" | "LE" => comparison(name, a, b, c, d),
        "LOAD" | "STORE" => indexed(name, a, b, c, d),
        "NEG" | "NOT" => sole(name, a, b),
        _ => copy(name, a, b, c, d),
    }
}

fn three_integers(alloc: Global) -> Result<Layout, LayoutFault> {
    let claim = Claim {
        name: Name::new(alloc, b"x")?,
        kind: CellType::Integer,
        length: 3,
        share: None,
        line: 1,
    };
    layout(alloc, &[claim])
}

#[tactic(auto, using(crate::proofs::Lengths::length_of_value))]
fn memory_of(alloc: Global, text: &str) -> Result<Memory, Fail>
    ensures { IfOk result (λ memory. length memory ≡ 192) }
{
    let mut words = text.split(' ');
    let first = words.next().unwrap_or("").parse().unwrap_or(0);
    let second = words.next().unwrap_or("").parse().unwrap_or(0);
    let third = words.next().unwrap_or("").parse().unwrap_or(0);
    let layout = three_integers(alloc)
        .ok()
        .ok_or("three INTEGERs have a layout")?;
    let mut memory = Memory::zeros(alloc, &layout)?;
    if layout.bits() != 192 {
        return Err(Fail::from("three INTEGERs have 192 bits"));
    }
    memory.set_value(CellType::Integer, 0, first);
    memory.set_value(CellType::Integer, 64, second);
    memory.set_value(CellType::Integer, 128, third);
    Ok(memory)
}

fn memory_text(alloc: Global, memory: &Memory) -> Result<String, AllocError>
    requires { length memory.now ≡ 192 }
{
    let first = memory.value(CellType::Integer, 0);
    let second = memory.value(CellType::Integer, 64);
    let third = memory.value(CellType::Integer, 128);
    format!(in alloc; "{first} {second} {third}")
}

// Does the instruction, at line 5.
#[tactic(auto, using(crate::proofs::Lengths::kept))]
fn done(instruction: Classic, memory: &mut Memory) -> Result<(), ClassicFault>
    requires bits { length memory.old ≡ 192 }
    requires fits { ClassicFits instruction 192 }
    ensures { length memory.new ≡ 192 }
{
    apply(5, instruction, memory)
}

fn told(alloc: Global, row: &str) -> Result<String, Fail> {
    let (words, before) = row.split_once(" : ").ok_or("the row has a memory")?;
    let instruction = instruction(words).ok_or("the row has an instruction")?;
    let mut memory = memory_of(alloc, before)?;
    let Err(fault) = done(instruction, &mut memory) else {
        return Ok(memory_text(alloc, &memory)?);
    };
    let mut text = Vec::new(alloc);
    Fault::from(fault).diagnostic().push_text(alloc, &mut text)?;
    Ok(String::from_utf8_lossy(alloc, &text)?)
}

const ROWS: &str = "\
MOVE BIT 0 #1 : 0 0 0 => 1 0 0
MOVE BIT 0 #0 : 1 0 0 => 0 0 0
MOVE BIT 63 #1 : 0 0 0 => -9223372036854775808 0 0
MOVE OCTET 8 #255 : 0 0 0 => 65280 0 0
MOVE OCTET 0 #0 : -1 0 0 => -256 0 0
MOVE INTEGER 0 #-9223372036854775808 : 0 0 0 => -9223372036854775808 0 0
MOVE INTEGER 0 #9223372036854775807 : 0 0 0 => 9223372036854775807 0 0
MOVE REAL 64 #-9223372036854775808 : 0 0 0 => 0 -9223372036854775808 0
MOVE REAL 64 #9223372036854775807 : 0 0 0 => 0 9223372036854775807 0
MOVE INTEGER 0 64 : 1 -7 0 => -7 -7 0
EXCHANGE BIT 0 1 : 1 0 0 => 2 0 0
EXCHANGE INTEGER 0 64 : 3 -4 0 => -4 3 0
EXCHANGE REAL 0 128 : 8 0 -8 => -8 0 8
EXCHANGE OCTET 0 4 : 801 0 0 => 530 0 0
ADD INTEGER 0 #1 : 9223372036854775806 0 0 => 9223372036854775807 0 0
ADD INTEGER 0 #1 : 9223372036854775807 0 0 => 29 Overflow line=5
ADD INTEGER 0 #-1 : -9223372036854775808 0 0 => 29 Overflow line=5
ADD REAL 0 #1 : 9223372036854775807 0 0 => 29 Overflow line=5
ADD REAL 0 64 : 6 -8 0 => -2 -8 0
ADD REAL 0 #-1 : -9223372036854775808 0 0 => 29 Overflow line=5
SUB INTEGER 0 64 : 5 7 0 => -2 7 0
SUB INTEGER 0 64 : 0 -9223372036854775808 0 => 29 Overflow line=5
SUB REAL 0 #1 : -9223372036854775808 0 0 => 29 Overflow line=5
SUB REAL 0 0 : 9 0 0 => 0 0 0
MUL 0 64 : -3 7 0 => -21 7 0
MUL 0 #2 : 4611686018427387904 0 0 => 29 Overflow line=5
MUL 0 #-2 : 4611686018427387904 0 0 => -9223372036854775808 0 0
DIV 0 #2 : -7 0 0 => -3 0 0
DIV 0 #-2 : 7 0 0 => -3 0 0
DIV 0 #-2 : -7 0 0 => 3 0 0
DIV 0 64 : 7 0 0 => 30 ZeroDivide line=5
DIV 0 #-1 : -9223372036854775808 0 0 => 29 Overflow line=5
NEG INTEGER 0 : 5 0 0 => -5 0 0
NEG INTEGER 0 : -9223372036854775808 0 0 => 29 Overflow line=5
NEG INTEGER 0 : 9223372036854775807 0 0 => -9223372036854775807 0 0
NEG REAL 64 : 0 3 0 => 0 -3 0
NEG REAL 64 : 0 -9223372036854775808 0 => 29 Overflow line=5
NOT BIT 1 : 3 0 0 => 1 0 0
NOT BIT 127 : 0 0 0 => 0 -9223372036854775808 0
NOT OCTET 8 : 0 0 0 => 65280 0 0
NOT OCTET 0 : 255 0 0 => 0 0 0
NOT INTEGER 0 : 0 0 0 => -1 0 0
AND BIT 0 1 : 1 0 0 => 0 0 0
AND OCTET 0 #12 : 10 0 0 => 8 0 0
AND INTEGER 0 64 : -1 6 0 => 6 6 0
IOR BIT 0 #1 : 0 0 0 => 1 0 0
IOR OCTET 0 #240 : 15 0 0 => 255 0 0
IOR INTEGER 0 64 : 12 10 0 => 14 10 0
XOR BIT 0 #1 : 1 0 0 => 0 0 0
XOR OCTET 0 #255 : 15 0 0 => 240 0 0
XOR INTEGER 0 #-1 : 5 0 0 => -6 0 0
CONVERT BIT 0 BIT 64 : 0 1 0 => 1 1 0
CONVERT BIT 0 INTEGER 64 : 0 1 0 => 1 1 0
CONVERT BIT 0 INTEGER 64 : 0 -1 0 => 29 Overflow line=5
CONVERT OCTET 0 BIT 64 : 7 1 0 => 1 1 0
CONVERT OCTET 0 OCTET 64 : 0 255 0 => 255 255 0
CONVERT INTEGER 0 OCTET 64 : -1 255 0 => 255 255 0
CONVERT INTEGER 0 INTEGER 64 : 0 -9223372036854775808 0 => -9223372036854775808 -9223372036854775808 0
CONVERT OCTET 0 INTEGER 64 : 0 255 0 => 255 255 0
CONVERT OCTET 0 INTEGER 64 : 7 256 0 => 29 Overflow line=5
CONVERT OCTET 0 INTEGER 64 : 7 -1 0 => 29 Overflow line=5
CONVERT BIT 0 OCTET 64 : 0 2 0 => 29 Overflow line=5
CONVERT INTEGER 0 BIT 64 : 5 1 0 => 1 1 0
LOAD INTEGER 0 1/64/1 128 : 0 42 0 => 42 42 0
LOAD BIT 0 3/64/64 128 : 0 8 3 => 1 8 3
LOAD REAL 0 1/64/1 128 : 0 -8 0 => -8 -8 0
LOAD OCTET 0 2/64/8 128 : 0 72057594037927936 7 => 1 72057594037927936 7
LOAD INTEGER 0 1/64/1 128 : 0 42 1 => 14 OutOfRange index=1 length=1 line=5 region=1
LOAD BIT 0 3/64/64 128 : 0 0 -1 => 14 OutOfRange index=-1 length=64 line=5 region=3
STORE INTEGER 1/64/1 128 #-5 : 0 0 0 => 0 -5 0
STORE INTEGER 1/128/1 128 0 : 7 0 0 => 7 0 7
STORE BIT 3/64/64 128 #1 : 0 0 63 => 0 -9223372036854775808 63
STORE REAL 1/64/1 128 #-8 : 0 0 0 => 0 -8 0
STORE INTEGER 1/64/1 128 #5 : 0 0 -1 => 14 OutOfRange index=-1 length=1 line=5 region=1
STORE OCTET 2/64/8 128 #255 : 0 0 1 => 0 65280 1
STORE OCTET 2/64/8 128 #255 : 0 0 8 => 14 OutOfRange index=8 length=8 line=5 region=2
EQ 0 OCTET 64 #255 : 0 255 0 => 1 255 0
EQ 0 BIT 64 #1 : 1 0 0 => 0 0 0
GT 0 INTEGER 64 #5 : 1 5 0 => 0 5 0
GE 64 INTEGER 64 #6 : 0 6 0 => 0 7 0
LT 0 INTEGER 64 128 : 0 -1 0 => 1 -1 0
LT 0 INTEGER 64 #0 : 1 0 0 => 0 0 0
LE 0 OCTET 64 #255 : 0 255 0 => 1 255 0
LE 0 REAL 64 #-8 : 1 -7 0 => 0 -7 0
GT 0 REAL 64 #-8 : 0 -7 0 => 1 -7 0
";

#[test]
fn instructions_have_these_effects(rt: HostRuntime) -> Result<(), Fail> {
    for row in ROWS.lines() {
        let (given, want) = row.split_once(" => ").ok_or("the row has a result")?;
        assert_eq!(rt; told(rt.alloc(), given)?.as_str(), want, "at {given}");
    }
    Ok(())
}
