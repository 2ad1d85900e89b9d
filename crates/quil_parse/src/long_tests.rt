use crate::tree_text::{fault_text, told};
use crate::{parse, parse_expr};
use quil_tree::print;
use std::alloc::{AllocError, Global};
use std::test::*;

// A text in pieces, which stand between `|`: `9×ab` is `ab` nine times, and `⏎` is a line feed.
fn long_text(alloc: Global, pieces: &str) -> Result<String, AllocError> {
    let pieces = pieces.replace(alloc, "⏎", "\n")?;
    let mut text = String::new(alloc);
    for piece in pieces.split('|') {
        let (count, part) = piece.split_once('×').unwrap_or(("1", piece));
        let count = count.parse::<usize>().unwrap_or(0);
        for _ in 0..count {
            text.push_str(part)?;
        }
    }
    Ok(text)
}

// How many items are read, or the fault.
fn items(alloc: Global, text: &str) -> Result<String, AllocError> {
    match parse(alloc, text.as_bytes()) {
        Ok(tree) => format!(in alloc; "{}", tree.as_slice().len()),
        Err(fault) => fault_text(alloc, &fault),
    }
}

// That an expression is read, or the fault.
fn expression(alloc: Global, text: &str) -> Result<String, AllocError> {
    match parse_expr(alloc, text.as_bytes()) {
        Ok(_expr) => format!(in alloc; "read"),
        Err(fault) => fault_text(alloc, &fault),
    }
}

// How long the printed text is, and what reading that gives: itself again, or a fault.
fn printed(alloc: Global, text: &str) -> Result<String, AllocError> {
    let Ok(tree) = parse(alloc, text.as_bytes()) else {
        return format!(in alloc; "not read");
    };
    let text = print(alloc, &tree)?;
    let length = text.as_bytes().len();
    match parse(alloc, text.as_bytes()) {
        Ok(again) => {
            let is_same = print(alloc, &again)?.as_bytes() == text.as_bytes();
            format!(in alloc; "{length} {is_same}")
        }
        Err(fault) => format!(in alloc; "{length} {}", fault_text(alloc, &fault)?),
    }
}

#[derive(Clone, Copy)]
enum Asked {
    Items,
    Expression,
    Printed,
}

// What is wrong of the rows of a table: a text in pieces, ` => `, and what is told of it.
fn misses(alloc: Global, asked: Asked, table: &str) -> Result<String, AllocError> {
    let mut all = String::new(alloc);
    for row in table.lines() {
        let Some((pieces, want)) = row.split_once(" => ") else {
            all.push_str(row)?;
            continue;
        };
        let text = long_text(alloc, pieces)?;
        let found = match asked {
            Asked::Items => items(alloc, &text)?,
            Asked::Expression => expression(alloc, &text)?,
            Asked::Printed => printed(alloc, &text)?,
        };
        if found.as_str() != want {
            all.push_str(&format!(in alloc; "\n{pieces} gives {found} and not {want}")?)?;
        }
    }
    Ok(all)
}

// Texts of up to 1 MiB and more, with expressions as deep as they can hold: each is read or refused, and dropped.
#[test]
fn long_texts(rt: HostRuntime) -> Result<(), Fail> {
    let table = "
1048576×⏎ => 0
1048577×⏎ => 7 1048577
1048577×$ => 7 1048577
300000×X 0  => 7 1200000
1048576×; => 0
#|1048575×( => 0
X 0|1048573×  => 1
X 0|1048573× |$ => 7 1048577
X 0|1048572× |$ => 5 1:1048576
65536×X 0⏎ => 65536
262144×X 0⏎ => 262144
262144×X 0; => 262144
262143×X 0⏎|X 0) => 6 262144:4
1000000×⏎|OR => 8 1000001 OR
70000×DEFGATE G:⏎ 1⏎ => 70000
DEFGATE G:⏎|300000× 1⏎ => 1
DEFGATE G:⏎ 1|500000×,1 => 1
DEFGATE G AS PERMUTATION:⏎ 0|500000×,0 => 1
DEFGATE G(%a|300000×,%a|):⏎ 1 => 1
DEFCIRCUIT A|500000× q|:⏎ X => 1
DEFCIRCUIT A q:⏎|60000× X q⏎|X 0 => 2
DEFCIRCUIT A q:⏎|60000× X q⏎|X q => 6 60002:3
DEFCIRCUIT A q:⏎ X q⏎|1000000×⏎| X q => 1
DECLARE x BIT SHARING y OFFSET|170000× 1 BIT => 1
95000×CONTROLLED |X => 1
X|524287× 0 => 1
X |1000000×0|65535 => 1
X |1000000×9 => 4 1:3
MOVE x |1000000×9 => 4 1:8
NOT x[|1000000×0|7] => 1
PRAGMA a|524284× b => 1
PRAGMA a \"|1000000×(|\" => 1
X(|1048574×( => 6 1:1048577
X(1|524285×+1|) 0 => 1
X(1|524285×+1|+ => 6 1:1048575
X(2|524285×^2|) 0 => 1
X(|1048570×-|1) 0 => 1
X(|349000×2^-|1) 0 => 1
X(|349000×1+(|1) 0 => 6 1:1047006
X(|200000×sqrt( => 6 1:1000003
X(1|500000×,1|) => 1
MOVE a |1048569×( => 6 1:1048577
MOVE a |1048568×-|1 => 1
MOVE a 1|500000×*1 => 1
DEFGATE G:⏎ |1000000×-|1 => 1
DEFGATE G(%a):⏎ %a|340000×^%a => 1
X(|400000×(|1|400000×)|) 0 => 1
MOVE a |400000×(|1|400000×) => 1
DEFGATE G:⏎ |400000×(|1|400000×)|⏎ => 1
";
    assert_eq!(rt; misses(rt.alloc(), Asked::Items, table)?.as_str(), "");
    Ok(())
}

#[test]
fn long_expressions(rt: HostRuntime) -> Result<(), Fail> {
    let table = "
1|524287×+1|  => read
2|524287×^2|  => read
1048575×-|1 => read
1048576×( => 6 1:1048577
1|524287×+1|+ => 6 1:1048577
1|1048575×  => read
1|1048575×⏎ => read
1|1048576×⏎ => 7 1048577
1048577×$ => 7 1048577
1000000×1  => 7 2000000
400000×(|1|400000×) => read
";
    assert_eq!(rt; misses(rt.alloc(), Asked::Expression, table)?.as_str(), "");
    Ok(())
}

// The lengths by hand: `RX(`, the parentheses and signs, `) 0` and the line's end. A printed text may be longer than a text may be.
#[test]
fn long_texts_are_printed(rt: HostRuntime) -> Result<(), Fail> {
    let table = "
RX(|300000×-|pi) 0 => 900009 true
RX(|400000×(|1|400000×)|) 0 => 8 true
RX(1|170000×+1|) 0 => 1020006 true
RX(1|170000×^1|) 0 => 1020006 true
RX(1|400000×+1|) 0 => 2400006 7 2400006
";
    assert_eq!(rt; misses(rt.alloc(), Asked::Printed, table)?.as_str(), "");
    Ok(())
}

// A circuit of 40,000 formals and parameters, each told once by name, the last first.
#[test]
fn many_formals(rt: HostRuntime) -> Result<(), Fail> {
    let alloc = rt.alloc();
    let mut text = String::new(alloc);
    text.push_str("DEFCIRCUIT A(%p0")?;
    for number in 1..40_000 {
        text.push_str(&format!(in alloc; ",%p{number}")?)?;
    }
    text.push_str(")")?;
    for number in 0..40_000 {
        text.push_str(&format!(in alloc; " q{number}")?)?;
    }
    text.push_str(":\n RX(%p39999) q39999\n X")?;
    for number in 0..40_000 {
        text.push_str(&format!(in alloc; " q{number}")?)?;
    }
    assert_eq!(rt; items(alloc, &text)?.as_str(), "1");
    let told = told(alloc, text.as_bytes())?;
    assert!(rt;
        told.as_str().contains(
            "{2:2 RX@2:2 (%39999@2:5)@2:5 $q39999@2:14; 3:2 X@3:2 $q0@3:4 $q1@3:7 "
        )
    );
    Ok(())
}
