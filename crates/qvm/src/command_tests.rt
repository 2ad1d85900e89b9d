//! The options of `run`.

use crate::command::command_of;
use crate::tests::told_by;
use std::alloc::{AllocError, Global};
use std::test::*;

// The words of a line.
fn split(alloc: Global, line: &str) -> Result<Vec<String>, AllocError> {
    let mut words = Vec::new(alloc);
    for word in line.split(' ') {
        words.push(String::from_str(alloc, word)?)?;
    }
    Ok(words)
}

// The first word of the seed of the last row is 7c0ad3c5, and that of the row before it d485ce7f: H gives 1 where it is below 2^31.
#[test]
fn commands_end_so(rt: HostRuntime) -> Result<(), Fail> {
    let alloc = rt.alloc();
    let table = "
run --max-steps 1 < X 0⏎ => 5 step limit⏎
run --max-steps 1 < X 0 => 5 step limit⏎
run --max-steps 2 < X 0⏎ => 0
run --max-steps 1 <  => 0
run --max-steps 1 < HALT => 0
run --max-steps 1 < WAIT⏎ => 5 step limit⏎
run --max-steps=2 < WAIT⏎ => 3 waiting⏎
run --max-steps 00000000000000000002 < DECLARE ro BIT⏎X 0⏎MEASURE 0 ro => 5 ro: 1⏎step limit⏎
run --max-steps=3 < DECLARE ro BIT⏎X 0⏎MEASURE 0 ro => 0 ro: 1⏎
run --max-steps 2 < DECLARE x INTEGER⏎NOP⏎DIV x 0 => 4 x: 0⏎fault: 30 ZeroDivide line=3⏎
run --max-steps 1 < $ => 1 error: 5 BadToken column=1 line=1⏎
run --seed 0000000000000000000000000000000000000000000000000000000000000000 < DECLARE ro BIT⏎H 0⏎MEASURE 0 ro => 0 ro: 0⏎
run --seed=1000000000000000000000000000000000000000000000000000000000000000 < DECLARE ro BIT⏎H 0⏎MEASURE 0 ro => 0 ro: 0⏎
run --seed 0100000000000000000000000000000000000000000000000000000000000000 < DECLARE ro BIT⏎H 0⏎MEASURE 0 ro => 0 ro: 1⏎
";
    let mut misses = String::new(alloc);
    for row in table.lines() {
        let Some((form, want)) = row.split_once(" => ") else {
            misses.push_str(row)?;
            continue;
        };
        let Some((line, text)) = form.split_once(" < ") else {
            misses.push_str(row)?;
            continue;
        };
        let words = split(alloc, line)?;
        let text = text.replace(alloc, "⏎", "\n")?;
        let said = told_by(alloc, &words, &text, 0)?;
        if said.as_str() != want {
            misses.push_str(&format!(in alloc; "{form} => {said}\n")?)?;
        }
    }
    assert_eq!(rt; misses.as_str(), "");
    Ok(())
}

// The words behind `run`; `*` stands for 62 zeros, so that `ab*` is a seed.
#[test]
fn words_of_run(rt: HostRuntime) -> Result<(), Fail> {
    let alloc = rt.alloc();
    let table = "
 --max-steps=1 => run
 --max-steps 0001 => run
 --max-steps 00000000000000000001 => run
 --max-steps 000000000000000000001 => usage
 --max-steps 4294967296 => run
 --max-steps 4294967297 => usage
 --max-steps 18446744073709551616 => usage
 --max-steps 0 => usage
 --max-steps +1 => usage
 --max-steps -1 => usage
 --max-steps 1a => usage
 --max-steps= => usage
 --max-steps => usage
 --max-steps 1 --max-steps 1 => usage
 --max-steps=1 --max-steps=1 => usage
 --max-step 1 => usage
 --seed ab* => run
 --seed AB* => run
 --seed=aB* => run
 --seed b* => usage
 --seed abc* => usage
 --seed ag* => usage
 --seed +b* => usage
 --seed= => usage
 --seed => usage
 --seed --max-steps => usage
 --seed --max-steps 1 => usage
 --seed ab* --max-steps 1 => run
 --max-steps=1 --seed ab* => run
 --max-steps 1 --seed=ab* => run
 --seed ab* --seed ab* => usage
 --seed=ab* --max-steps=1 --seed ab* => usage
 --seed =ab* => usage
 ab* => usage
 --Seed ab* => usage
 -seed ab* => usage
 --seed ab* run => usage
 -- => usage
 -h => usage
 --help => usage
 --max-steps 1 -- => usage
";
    let zeros = "00000000000000000000000000000000000000000000000000000000000000";
    let mut misses = String::new(alloc);
    for row in table.lines() {
        let Some((form, want)) = row.split_once(" => ") else {
            misses.push_str(row)?;
            continue;
        };
        let line = format!(in alloc; "run{form}")?.replace(alloc, "*", zeros)?;
        let words = split(alloc, &line)?;
        let said = if command_of(&words).is_some() {
            "run"
        } else {
            "usage"
        };
        if said != want {
            misses.push_str(&format!(in alloc; "{form} => {said}\n")?)?;
        }
    }
    assert_eq!(rt; misses.as_str(), "");
    Ok(())
}
