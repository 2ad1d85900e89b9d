//! Trees and faults as short texts, for tests.
//!
//! A part that has a place of its own ends with `@line:column`. An expression is its steps in parentheses, a formal qubit
//! begins with `$`, a pragma's tokens stand in angle brackets, and a number whose digits aren't those of its value has both.

use crate::{parse, parse_expr};
use quil_grammar::ReadFault;
use quil_tree::*;
use std::alloc::{AllocError, Global};

type Said = Result<String, AllocError>;

fn text(text: &Text) -> &str {
    str::from_utf8(text.as_bytes()).unwrap_or("?")
}

fn at(alloc: Global, what: &str, place: Place) -> Said {
    format!(in alloc; "{what}@{}:{}", place.line, place.column)
}

fn name(alloc: Global, name: &Name) -> Said {
    at(alloc, text(&name.text), name.place)
}

fn whole(alloc: Global, whole: &Whole) -> Said {
    let value = format!(in alloc; "{}", whole.value)?;
    let digits = text(&whole.digits);
    if value.as_str() == digits {
        Ok(value)
    } else {
        format!(in alloc; "{digits}={value}")
    }
}

fn address(alloc: Global, address: &Address) -> Said {
    format!(in alloc;
        "{}[{}]",
        text(&address.region),
        whole(alloc, &address.index)?
    )
}

fn reference(alloc: Global, reference: &Reference) -> Said {
    at(alloc, &address(alloc, &reference.address)?, reference.place)
}

fn qubit(alloc: Global, qubit: &Qubit) -> Said {
    match qubit {
        Qubit::Index(place, index) => at(alloc, &whole(alloc, index)?, *place),
        Qubit::Formal(formal) => format!(in alloc; "${}", name(alloc, formal)?),
    }
}

fn action(alloc: Global, action: &Action) -> Said {
    let word = match action {
        Action::Push(Atom::Number(digits)) | Action::Push(Atom::Imaginary(digits)) => text(digits),
        Action::Push(Atom::Pi) => "pi",
        Action::Push(Atom::I) => "i",
        Action::Push(Atom::Parameter(number)) => return format!(in alloc; "%{number}"),
        Action::Push(Atom::Cell(cell)) => return address(alloc, cell),
        Action::Sign(Sign::Plus) => "plus",
        Action::Sign(Sign::Minus) => "minus",
        Action::Apply(Operator::Add) => "+",
        Action::Apply(Operator::Subtract) => "-",
        Action::Apply(Operator::Multiply) => "*",
        Action::Apply(Operator::Divide) => "/",
        Action::Apply(Operator::Power) => "^",
        Action::Call(Function::Sqrt) => "sqrt",
        Action::Call(Function::Sin) => "sin",
        Action::Call(Function::Cos) => "cos",
        Action::Call(Function::Cis) => "cis",
        Action::Call(Function::Exp) => "exp",
    };
    format!(in alloc; "{word}")
}

fn steps(alloc: Global, expr: &Expr) -> Said {
    let mut said = String::new(alloc);
    for step in expr.steps() {
        said.push_str(if said.is_empty() { "(" } else { " " })?;
        said.push_str(&at(alloc, &action(alloc, &step.action)?, step.place)?)?;
    }
    said.push_str(")")?;
    Ok(said)
}

fn formula(alloc: Global, formula: &Formula) -> Said {
    at(alloc, &steps(alloc, &formula.expr)?, formula.place)
}

fn operand(alloc: Global, operand: &Operand) -> Said {
    match operand {
        Operand::Reference(cell) => reference(alloc, cell),
        Operand::Formula(expression) => formula(alloc, expression),
        Operand::Literal(place, sign, number) => {
            let sign = match sign {
                Some(Sign::Plus) => "+",
                Some(Sign::Minus) => "-",
                None => "",
            };
            let digits = whole(alloc, number)?;
            at(alloc, &format!(in alloc; "{sign}{digits}")?, *place)
        }
    }
}

fn add(alloc: Global, said: &mut String, part: Said) -> Result<(), AllocError> {
    said.push_str(" ")?;
    said.push_str(&part?)
}

fn gate(alloc: Global, gate: &Gate) -> Said {
    let mut said = String::new(alloc);
    for modifier in gate.modifiers.as_slice() {
        let word = match modifier.kind {
            Modification::Controlled => "CONTROLLED",
            Modification::Dagger => "DAGGER",
            Modification::Forked => "FORKED",
        };
        said.push_str(&at(alloc, word, modifier.place)?)?;
        said.push_str(" ")?;
    }
    said.push_str(&name(alloc, &gate.name)?)?;
    for parameter in gate.parameters.as_slice() {
        add(alloc, &mut said, formula(alloc, parameter))?;
    }
    for one in gate.qubits.as_slice() {
        add(alloc, &mut said, qubit(alloc, one))?;
    }
    Ok(said)
}

fn pragma(alloc: Global, pragma: &Name, tokens: &List<Text>) -> Said {
    let mut said = format!(in alloc; "PRAGMA {}", name(alloc, pragma)?)?;
    for token in tokens.as_slice() {
        add(alloc, &mut said, format!(in alloc; "<{}>", text(token)))?;
    }
    Ok(said)
}

fn word(statement: &Statement) -> &'static str {
    match statement {
        Statement::Gate(_) => "",
        Statement::Measure(_, _) => "MEASURE",
        Statement::Reset(_) => "RESET",
        Statement::Wait => "WAIT",
        Statement::Nop => "NOP",
        Statement::Halt => "HALT",
        Statement::Pragma(_, _) => "PRAGMA",
        Statement::Label(_) => "LABEL",
        Statement::Jump(_) => "JUMP",
        Statement::JumpWhen(_, _) => "JUMP-WHEN",
        Statement::JumpUnless(_, _) => "JUMP-UNLESS",
        Statement::Not(_) => "NOT",
        Statement::Neg(_) => "NEG",
        Statement::Exchange(_, _) => "EXCHANGE",
        Statement::Convert(_, _) => "CONVERT",
        Statement::Move(_, _) => "MOVE",
        Statement::Add(_, _) => "ADD",
        Statement::Sub(_, _) => "SUB",
        Statement::Mul(_, _) => "MUL",
        Statement::Div(_, _) => "DIV",
        Statement::And(_, _) => "AND",
        Statement::Ior(_, _) => "IOR",
        Statement::Xor(_, _) => "XOR",
        Statement::Load(_, _, _) => "LOAD",
        Statement::Store(_, _, _) => "STORE",
        Statement::Eq(_, _, _) => "EQ",
        Statement::Gt(_, _, _) => "GT",
        Statement::Ge(_, _, _) => "GE",
        Statement::Lt(_, _, _) => "LT",
        Statement::Le(_, _, _) => "LE",
    }
}

fn joined(alloc: Global, word: &str, parts: &[String]) -> Said {
    let mut said = format!(in alloc; "{word}")?;
    for part in parts {
        said.push_str(" ")?;
        said.push_str(part)?;
    }
    Ok(said)
}

fn statement(alloc: Global, statement: &Statement) -> Said {
    let word = word(statement);
    match statement {
        Statement::Gate(g) => gate(alloc, g),
        Statement::Measure(q, None) => joined(alloc, word, &[qubit(alloc, q)?]),
        Statement::Measure(q, Some(a)) => joined(
            alloc,
            word,
            &[qubit(alloc, q)?, reference(alloc, a)?],
        ),
        Statement::Reset(Some(q)) => joined(alloc, word, &[qubit(alloc, q)?]),
        Statement::Pragma(n, tokens) => pragma(alloc, n, tokens),
        Statement::Label(l) | Statement::Jump(l) => joined(alloc, word, &[name(alloc, l)?]),
        Statement::JumpWhen(l, a) | Statement::JumpUnless(l, a) => {
            joined(alloc, word, &[name(alloc, l)?, reference(alloc, a)?])
        }
        other => classical(alloc, word, other),
    }
}

// An instruction on memory, or one without parts.
fn classical(alloc: Global, word: &str, statement: &Statement) -> Said {
    match statement {
        Statement::Not(a) | Statement::Neg(a) => joined(alloc, word, &[reference(alloc, a)?]),
        Statement::Exchange(a, b) | Statement::Convert(a, b) => {
            joined(alloc, word, &[reference(alloc, a)?, reference(alloc, b)?])
        }
        Statement::Move(a, x)
        | Statement::Add(a, x)
        | Statement::Sub(a, x)
        | Statement::Mul(a, x)
        | Statement::Div(a, x)
        | Statement::And(a, x)
        | Statement::Ior(a, x)
        | Statement::Xor(a, x) => {
            joined(alloc, word, &[reference(alloc, a)?, operand(alloc, x)?])
        }
        other => three_parts(alloc, word, other),
    }
}

// An instruction on memory with three parts, or one without parts.
fn three_parts(alloc: Global, word: &str, statement: &Statement) -> Said {
    match statement {
        Statement::Load(a, x, n) => {
            joined(
                alloc,
                word,
                &[reference(alloc, a)?, name(alloc, x)?, reference(alloc, n)?],
            )
        }
        Statement::Store(x, n, a) => {
            joined(
                alloc,
                word,
                &[name(alloc, x)?, reference(alloc, n)?, operand(alloc, a)?],
            )
        }
        Statement::Eq(r, a, x)
        | Statement::Gt(r, a, x)
        | Statement::Ge(r, a, x)
        | Statement::Lt(r, a, x)
        | Statement::Le(r, a, x) => {
            joined(
                alloc,
                word,
                &[
                    reference(alloc, r)?,
                    reference(alloc, a)?,
                    operand(alloc, x)?,
                ],
            )
        }
        _ => joined(alloc, word, &[]),
    }
}

fn begin(alloc: Global, place: Place) -> Said {
    format!(in alloc; "{}:{}", place.line, place.column)
}

fn line(alloc: Global, line: &Line) -> Said {
    format!(in alloc;
        "{} {}",
        begin(alloc, line.place)?,
        statement(alloc, &line.statement)?
    )
}

fn kind(kind: TypeName) -> &'static str {
    match kind {
        TypeName::Bit => "BIT",
        TypeName::Octet => "OCTET",
        TypeName::Integer => "INTEGER",
        TypeName::Real => "REAL",
    }
}

fn declaration(alloc: Global, declared: &Declaration) -> Said {
    let mut said = begin(alloc, declared.place)?;
    add(
        alloc,
        &mut said,
        format!(in alloc; "DECLARE {}", name(alloc, &declared.name)?),
    )?;
    let length = whole(alloc, &declared.length)?;
    add(
        alloc,
        &mut said,
        format!(in alloc; "{}[{length}]", kind(declared.kind)),
    )?;
    if let Some(sharing) = &declared.sharing {
        add(
            alloc,
            &mut said,
            format!(in alloc; "SHARING {}", name(alloc, &sharing.base)?),
        )?;
        for offset in sharing.offsets.as_slice() {
            let count = whole(alloc, &offset.count)?;
            add(
                alloc,
                &mut said,
                format!(in alloc; "{count} {}", kind(offset.kind)),
            )?;
        }
    }
    Ok(said)
}

fn names(alloc: Global, said: &mut String, names: &List<Name>) -> Result<(), AllocError> {
    for one in names.as_slice() {
        add(alloc, said, name(alloc, one))?;
    }
    Ok(())
}

fn row(alloc: Global, entries: &List<Formula>) -> Said {
    let mut said = String::new(alloc);
    for entry in entries.as_slice() {
        said.push_str(if said.is_empty() { "{" } else { " " })?;
        said.push_str(&formula(alloc, entry)?)?;
    }
    said.push_str("}")?;
    Ok(said)
}

fn gate_definition(alloc: Global, defined: &GateDefinition) -> Said {
    let mut said = begin(alloc, defined.place)?;
    add(
        alloc,
        &mut said,
        format!(in alloc; "DEFGATE {}", name(alloc, &defined.name)?),
    )?;
    names(alloc, &mut said, &defined.parameters)?;
    match &defined.form {
        Form::Matrix(rows) => {
            for entries in rows.as_slice() {
                add(alloc, &mut said, row(alloc, entries))?;
            }
        }
        Form::Permutation(numbers) => {
            said.push_str(" PERMUTATION")?;
            for number in numbers.as_slice() {
                add(alloc, &mut said, format!(in alloc; "{}", text(number)))?;
            }
        }
    }
    Ok(said)
}

fn circuit_definition(alloc: Global, defined: &CircuitDefinition) -> Said {
    let mut said = begin(alloc, defined.place)?;
    add(
        alloc,
        &mut said,
        format!(in alloc; "DEFCIRCUIT {}", name(alloc, &defined.name)?),
    )?;
    names(alloc, &mut said, &defined.parameters)?;
    names(alloc, &mut said, &defined.qubits)?;
    let mut before = " {";
    for inner in defined.body.as_slice() {
        said.push_str(before)?;
        said.push_str(&line(alloc, inner)?)?;
        before = "; ";
    }
    said.push_str("}")?;
    Ok(said)
}

/// The items, with a bar between each two.
pub(crate) fn tree_text(alloc: Global, tree: &Tree) -> Said {
    if tree.as_slice().is_empty() {
        return format!(in alloc; "nothing");
    }
    let mut said = String::new(alloc);
    for item in tree.as_slice() {
        if !said.is_empty() {
            said.push_str(" | ")?;
        }
        let one = match item {
            Item::Declare(declared) => declaration(alloc, declared)?,
            Item::DefGate(defined) => gate_definition(alloc, defined)?,
            Item::DefCircuit(defined) => circuit_definition(alloc, defined)?,
            Item::Plain(plain) => line(alloc, plain)?,
        };
        said.push_str(&one)?;
    }
    Ok(said)
}

/// The fault's code, and its line and column, its line and word, or its length.
pub(crate) fn fault_text(alloc: Global, fault: &ReadFault) -> Said {
    match fault {
        ReadFault::NumberTooWide { line, column } => format!(in alloc; "4 {line}:{column}"),
        ReadFault::BadToken { line, column } => format!(in alloc; "5 {line}:{column}"),
        ReadFault::Unexpected { line, column } => format!(in alloc; "6 {line}:{column}"),
        ReadFault::TextTooLong { length } => format!(in alloc; "7 {length}"),
        ReadFault::LeftOut { line, word } => format!(in alloc; "8 {line} {}", text(word)),
        ReadFault::OutOfMemory => format!(in alloc; "no memory"),
    }
}

/// What `parse` gives, as a text.
pub(crate) fn told(alloc: Global, text: &[u8]) -> Result<String, AllocError> {
    match parse(alloc, text) {
        Ok(tree) => tree_text(alloc, &tree),
        Err(fault) => fault_text(alloc, &fault),
    }
}

// A text of a tree without the places in it.
fn without_places(alloc: Global, said: &str) -> Result<Vec<u8>, AllocError> {
    let mut bytes = Vec::new(alloc);
    let mut in_place = true;
    let mut between = false;
    for byte in said.as_bytes() {
        if in_place && (byte.is_ascii_digit() || *byte == b':') {
            continue;
        }
        in_place = *byte == b'@' || *byte == b'{' || (between && *byte == b' ');
        between = *byte == b'|' || *byte == b';';
        bytes.push(*byte)?;
    }
    Ok(bytes)
}

// The tree of a text, if it has one, is printed and read again as the same tree up to places.
fn is_read_again(alloc: Global, text: &[u8]) -> Result<bool, AllocError> {
    let Ok(tree) = parse(alloc, text) else {
        return Ok(true);
    };
    let printed = print(alloc, &tree)?;
    let Ok(again) = parse(alloc, printed.as_bytes()) else {
        return Ok(false);
    };
    let first = without_places(alloc, &tree_text(alloc, &tree)?)?;
    let second = without_places(alloc, &tree_text(alloc, &again)?)?;
    Ok(first.as_slice() == second.as_slice())
}

// What `parse_expr` gives, as a text.
fn told_expression(alloc: Global, text: &[u8]) -> Said {
    match parse_expr(alloc, text) {
        Ok(expr) => steps(alloc, &expr),
        Err(fault) => fault_text(alloc, &fault),
    }
}

// What the tree of a text is printed as, with `⏎` for line feeds, or its fault.
fn told_printed(alloc: Global, program: &[u8]) -> Said {
    match parse(alloc, program) {
        Ok(tree) => {
            let printed = print(alloc, &tree)?;
            text(&printed).replace(alloc, "\n", "⏎")
        }
        Err(fault) => fault_text(alloc, &fault),
    }
}

// What is asked of a text.
#[derive(Clone, Copy)]
enum Reading {
    Program,
    Expression,
    Printed,
}

// What is wrong of a text that is to give this: it gives something else, or its tree isn't printed as itself.
fn miss(alloc: Global, reading: Reading, text: &str, want: &str) -> Said {
    let (found, is_same) = match reading {
        Reading::Program => (
            told(alloc, text.as_bytes())?,
            is_read_again(alloc, text.as_bytes())?,
        ),
        Reading::Expression => (told_expression(alloc, text.as_bytes())?, true),
        Reading::Printed => (told_printed(alloc, text.as_bytes())?, true),
    };
    if found.as_str() != want {
        format!(in alloc; "\n{text:?} gives {found} and not {want}")
    } else if is_same {
        Ok(String::new(alloc))
    } else {
        format!(in alloc; "\n{text:?} is printed as another tree")
    }
}

// What is wrong of the rows of a table, one a line: a text, ` => `, and what it gives. In a text `⏎` stands for a line feed.
fn misses_of(alloc: Global, reading: Reading, table: &str) -> Said {
    let mut all = String::new(alloc);
    for row in table.lines() {
        let Some((text, want)) = row.split_once(" => ") else {
            all.push_str(row)?;
            continue;
        };
        let text = text.replace(alloc, "⏎", "\n")?;
        all.push_str(&miss(alloc, reading, &text, want)?)?;
    }
    Ok(all)
}

// The same of a table in which each `W` stands for the word, for each of the words, which have spaces between them.
fn misses_of_words(alloc: Global, reading: Reading, words: &str, table: &str) -> Said {
    let mut all = String::new(alloc);
    for word in words.split(' ') {
        let rows = table.replace(alloc, "W", word)?;
        all.push_str(&misses_of(alloc, reading, &rows)?)?;
    }
    Ok(all)
}

/// What is wrong of a table of programs, each with its tree or its fault.
pub(crate) fn misses(alloc: Global, table: &str) -> Said {
    misses_of(alloc, Reading::Program, table)
}

/// The same for each of these words in place of `W`.
pub(crate) fn misses_with(alloc: Global, words: &str, table: &str) -> Said {
    misses_of_words(alloc, Reading::Program, words, table)
}

/// What is wrong of a table of expressions, each with its steps or its fault.
pub(crate) fn expression_misses(alloc: Global, table: &str) -> Said {
    misses_of(alloc, Reading::Expression, table)
}

/// The same for each of these words in place of `W`.
pub(crate) fn expression_misses_with(alloc: Global, words: &str, table: &str) -> Said {
    misses_of_words(alloc, Reading::Expression, words, table)
}

/// What is wrong of a table of programs, each with its printed text.
pub(crate) fn printed_misses(alloc: Global, table: &str) -> Said {
    misses_of(alloc, Reading::Printed, table)
}
