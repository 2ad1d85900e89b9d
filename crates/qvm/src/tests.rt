//! The program from bytes to bytes, over sources and sinks in memory.

use crate::local::local_main;
use qvm_io::{MemSink, MemSource};
use std::alloc::{AllocError, Global};
use std::process::Abort;
use std::test::Fail;

fn words_of(alloc: Global, words: &[&str]) -> Result<Vec<String>, AllocError> {
    let mut all = Vec::new(alloc);
    for word in words {
        all.push(String::from_str(alloc, *word)?)?;
    }
    Ok(all)
}

fn source_of(
    alloc: Global,
    text: &[u8],
    piece: usize,
    failing: Option<u64>,
) -> Result<MemSource, AllocError> {
    let bytes = Vec::from_slice(alloc, text)?;
    let pieces = if piece == 0 {
        Vec::new(alloc)
    } else {
        vec![in alloc; piece; text.len() / piece]?
    };
    let mut failures = Vec::new(alloc);
    if let Some(call) = failing {
        failures.push(call)?;
    }
    Ok(MemSource::new(bytes, pieces, failures))
}

// What words and a text come to, read in pieces of that size, 0 for whole pieces: the status, and what is written, as in a row.
pub(crate) fn told_by(
    alloc: Global,
    words: &[String],
    text: &str,
    piece: usize,
) -> Result<String, Fail> {
    let mut source = source_of(alloc, text.as_bytes(), piece, None)?;
    let mut sink = MemSink::new(alloc);
    let status = local_main(alloc, words, &mut source, &mut sink);
    let written = str::from_utf8(sink.taken()).unwrap_or("?");
    if written.is_empty() {
        return Ok(format!(in alloc; "{status}")?);
    }
    let line = written.replace(alloc, "\n", "⏎")?;
    Ok(format!(in alloc; "{status} {line}")?)
}

// What `run` without options makes of a text.
fn told(alloc: Global, text: &str, piece: usize) -> Result<String, Fail> {
    let words = words_of(alloc, &["run"])?;
    told_by(alloc, &words, text, piece)
}

// The rows whose texts come to something else, read whole or byte by byte. In a row `⏎` stands for a line feed.
pub(crate) fn misses(alloc: Global, table: &str) -> Result<String, Fail> {
    let mut all = String::new(alloc);
    for row in table.lines() {
        let Some((form, want)) = row.split_once(" => ") else {
            all.push_str(row)?;
            continue;
        };
        let text = form.replace(alloc, "⏎", "\n")?;
        for piece in [0, 1] {
            let said = told(alloc, &text, piece)?;
            if said.as_str() != want {
                all.push_str(&format!(in alloc; "{form} => {said}\n")?)?;
            }
        }
    }
    Ok(all)
}

// Words of the zero seed are at least 2^31 but for words 3 and 5 of the first six, and H gives 1 where a word is below.
#[test]
fn programs_end_so(rt: HostRuntime) -> Result<(), Fail> {
    let table = "
 => 0
⏎⏎ => 0
HALT => 0
⏎⏎HALT⏎⏎HALT => 0
X 0⏎H 9⏎X 10⏎H 15 => 0
MEASURE 7 => 0
PRAGMA a; X 0 => 0
DECLARE ro BIT[1]⏎X 0⏎MEASURE 0 ro[0]⏎ => 0 ro: 1⏎
DECLARE ro BIT⏎X 0⏎NOP; MEASURE 0 ro => 0 ro: 1⏎
DECLARE ro BIT[10] => 0 ro: 0 0 0 0 0 0 0 0 0 0⏎
DECLARE theta REAL⏎MOVE theta pi/4⏎ => 0 theta: pi/4⏎
DECLARE x INTEGER⏎MOVE x (2+3)*4⏎ => 0 x: 20⏎
DECLARE pis BIT⏎DECLARE si BIT => 0 pis: 0⏎si: 0⏎
DECLARE aa BIT[3]⏎DECLARE bb BIT[12]⏎X 2⏎MEASURE 2 bb[10]⏎DECLARE cc BIT⏎MEASURE 1 cc[0]⏎MEASURE 2 aa[2] => 0 aa: 0 0 1⏎bb: 0 0 0 0 0 0 0 0 0 0 1 0⏎cc: 0⏎
DECLARE ro BIT⏎DECLARE ab BIT[2]⏎X 0⏎HALT⏎CNOT 0 1⏎ => 0 ro: 0⏎ab: 0 0⏎
DECLARE ro BIT[2]⏎PRAGMA INITIAL_REWIRING \"PARTIAL\"⏎H 0⏎CNOT 0 1⏎MEASURE 0 ro[0]⏎MEASURE 1 ro[1]⏎ => 0 ro: 0 0⏎
DECLARE ro BIT[6]⏎H 0⏎MEASURE 0 ro[0]⏎H 1⏎MEASURE 1 ro[1]⏎H 2⏎MEASURE 2 ro[2]⏎H 3⏎MEASURE 3 ro[3]⏎H 4⏎MEASURE 4 ro[4]⏎H 5⏎MEASURE 5 ro[5]⏎ => 0 ro: 0 0 0 1 0 1⏎
DECLARE ro BIT⏎MEASURE 1⏎X 2⏎MEASURE 1⏎MEASURE 1⏎H 0⏎MEASURE 0 ro[0]⏎ => 0 ro: 1⏎
DECLARE ro BIT[4]⏎MEASURE 1⏎MEASURE 1⏎MEASURE 1⏎H 0⏎MEASURE 0 ro[0]⏎MEASURE 0 ro[1]⏎MEASURE 0 ro[2]⏎MEASURE 0 ro[3]⏎ => 0 ro: 1 1 1 1⏎
DECLARE zz BIT[2]⏎DECLARE aa BIT⏎X 15⏎MEASURE 15⏎MEASURE 15 zz[1]⏎MEASURE 15 aa[0]⏎MEASURE 0 aa[0]⏎ => 0 zz: 0 1⏎aa: 0⏎
DECLARE ro BIT[3]⏎X 37⏎CNOT 37 31⏎MEASURE 30 ro[0]⏎MEASURE 31 ro[1]⏎MEASURE 37 ro[2]⏎ => 0 ro: 0 1 1⏎
DECLARE ro BIT⏎X 3⏎H 3⏎H 3⏎MEASURE 3 ro[0]⏎ => 0 ro: 1⏎
DECLARE x INTEGER⏎DECLARE b BIT[3] SHARING x⏎MOVE x 5⏎ => 0 x: 5⏎b: 1 0 1⏎
DECLARE x INTEGER⏎DECLARE a OCTET[8] SHARING x⏎MOVE x -2⏎ => 0 x: -2⏎a: 254 255 255 255 255 255 255 255⏎
DECLARE x INTEGER[2]⏎MOVE x -9223372036854775808⏎MOVE x[1] 10⏎DIV x[1] -3⏎ => 0 x: -9223372036854775808 -3⏎
DECLARE t REAL⏎ => 0 t: 0⏎
DECLARE x INTEGER⏎DECLARE t REAL SHARING x⏎MOVE x -3⏎ => 0 x: -3⏎t: -3*pi/4⏎
DECLARE x INTEGER⏎DECLARE t REAL SHARING x⏎MOVE x 4⏎ => 0 x: 4⏎t: pi⏎
DECLARE n INTEGER[9]⏎DECLARE t REAL[9] SHARING n⏎MOVE n[1] 1⏎MOVE n[2] -1⏎MOVE n[3] 2⏎MOVE n[4] -2⏎MOVE n[5] 3⏎MOVE n[6] -3⏎MOVE n[7] -4⏎MOVE n[8] 6 => 0 n: 0 1 -1 2 -2 3 -3 -4 6⏎t: 0 pi/4 -pi/4 pi/2 -pi/2 3*pi/4 -3*pi/4 -pi 3*pi/2⏎
DECLARE n INTEGER[5]⏎DECLARE t REAL[5] SHARING n⏎MOVE n 8⏎MOVE n[1] -8⏎MOVE n[2] 10⏎MOVE n[3] 9223372036854775807⏎MOVE n[4] -9223372036854775808 => 0 n: 8 -8 10 9223372036854775807 -9223372036854775808⏎t: 2*pi -2*pi 5*pi/2 9223372036854775807*pi/4 -2305843009213693952*pi⏎
DECLARE x INTEGER[2]⏎DECLARE b BIT[16] SHARING x OFFSET 56 BIT⏎DECLARE o OCTET[2] SHARING x OFFSET 7 OCTET⏎MOVE x -2⏎MOVE o[1] 129⏎MOVE b 0 => 0 x: -72057594037927938 129⏎b: 0 1 1 1 1 1 1 1 1 0 0 0 0 0 0 1⏎o: 254 129⏎
DECLARE ro BIT⏎RESET 0⏎RESET 0⏎RESET 0⏎H 0⏎MEASURE 0 ro⏎ => 0 ro: 1⏎
DECLARE ro BIT[3]⏎X 0⏎X 1⏎RESET 0⏎MEASURE 0 ro⏎MEASURE 1 ro[1]⏎RESET⏎MEASURE 1 ro[2]⏎ => 0 ro: 0 1 0⏎
DECLARE ro BIT[3]⏎RESET⏎RESET⏎RESET⏎H 0⏎MEASURE 0 ro⏎ => 0 ro: 0 0 0⏎
WAIT⏎ => 3 waiting⏎
DECLARE ro BIT⏎X 0⏎MEASURE 0 ro⏎WAIT⏎NOT ro⏎ => 3 ro: 1⏎waiting⏎
DECLARE x INTEGER⏎MOVE x 9223372036854775807⏎ADD x 1 => 4 x: 9223372036854775807⏎fault: 29 Overflow line=3⏎
DECLARE a OCTET⏎DECLARE x INTEGER⏎MOVE x 256⏎CONVERT a x⏎ => 4 a: 0⏎x: 256⏎fault: 29 Overflow line=4⏎
DECLARE x INTEGER[2]⏎DECLARE i0 INTEGER⏎DECLARE y INTEGER⏎MOVE i0 2⏎LOAD y x i0⏎ => 4 x: 0 0⏎i0: 2⏎y: 0⏎fault: 14 OutOfRange index=2 length=2 line=5 region=0⏎
DECLARE x INTEGER[2]⏎⏎MOVE x 7; DIV x x[1]⏎ => 4 x: 7 0⏎fault: 30 ZeroDivide line=3⏎
";
    assert_eq!(rt; misses(rt.alloc(), table)?.as_str(), "");
    Ok(())
}

const BELL: &str = "DECLARE ro BIT[2]\nH 0\nCNOT 0 1\nMEASURE 0 ro[0]\nMEASURE 1 ro[1]\n";

#[test]
fn other_words_are_usage_and_read_nothing(rt: HostRuntime) -> Result<(), Fail> {
    let alloc = rt.alloc();
    let usage = "usage: qvm run | pipe | gen | audit | serve | call\n";
    let all: [&[&str]; 7] = [
        &[],
        &["run", "run"],
        &["pipe"],
        &["Run"],
        &["--help"],
        &["run "],
        &[""],
    ];
    for some in all {
        let words = words_of(alloc, some)?;
        let mut source = source_of(alloc, BELL.as_bytes(), 0, None)?;
        let mut sink = MemSink::new(alloc);
        let status = local_main(alloc, &words, &mut source, &mut sink);
        assert!(rt; status == 2, "{some:?}");
        assert!(rt; sink.taken() == usage.as_bytes(), "{some:?}");
        assert!(rt; source.reads() == 0, "{some:?}");
    }
    Ok(())
}

#[test]
fn a_read_that_fails_writes_nothing(rt: HostRuntime) -> Result<(), Fail> {
    let alloc = rt.alloc();
    let words = words_of(alloc, &["run"])?;
    // Byte by byte there is a read for each byte, and one that finds the end.
    let reads = BELL.len() as u64 + 1;
    for call in 1..reads + 1 {
        let mut source = source_of(alloc, BELL.as_bytes(), 1, Some(call))?;
        let mut sink = MemSink::new(alloc);
        let status = local_main(alloc, &words, &mut source, &mut sink);
        assert!(rt; status == 6, "read {call}");
        assert!(rt; sink.taken().is_empty(), "read {call}");
        assert!(rt; source.faults() == 1, "read {call}");
    }
    let mut source = source_of(alloc, BELL.as_bytes(), 1, Some(reads + 1))?;
    let mut sink = MemSink::new(alloc);
    assert_eq!(rt; local_main(alloc, &words, &mut source, &mut sink), 0);
    Ok(())
}

#[test]
fn a_sink_that_fills_up_has_a_front(rt: HostRuntime) -> Result<(), Fail> {
    let alloc = rt.alloc();
    let words = words_of(alloc, &["run"])?;
    let output = b"ro: 0 0\n";
    for room in 0..output.len() {
        let mut source = source_of(alloc, BELL.as_bytes(), 0, None)?;
        let mut sink = MemSink::with_limit(alloc, room)?;
        let status = local_main(alloc, &words, &mut source, &mut sink);
        assert!(rt; status == 7, "room for {room}");
        assert!(rt; output.starts_with(sink.taken()), "room for {room}");
        assert!(rt; sink.taken().len() == room, "room for {room}");
    }
    let mut source = source_of(alloc, BELL.as_bytes(), 0, None)?;
    let mut sink = MemSink::with_limit(alloc, output.len())?;
    assert_eq!(rt; local_main(alloc, &words, &mut source, &mut sink), 0);
    let mut sink = MemSink::with_limit(alloc, 3)?;
    assert_eq!(rt; local_main(alloc, &[], &mut source, &mut sink), 7);
    assert!(rt; sink.taken() == b"usa".as_slice());
    Ok(())
}

fn repeated(alloc: Global, line: &str, count: usize) -> Result<String, AllocError> {
    let mut text = String::new(alloc);
    for _ in 0..count {
        text.push_str(line)?;
    }
    Ok(text)
}

// So many copies of a piece come to this.
fn check_copies(
    rt: &impl Abort,
    alloc: Global,
    piece: &str,
    count: usize,
    want: &str,
) -> Result<(), Fail> {
    let text = repeated(alloc, piece, count)?;
    assert_eq!(rt;
        told(alloc, &text, 0)?.as_str(),
        want,
        "of {count} times {piece}"
    );
    Ok(())
}

#[test]
fn limits_of_a_text(rt: HostRuntime) -> Result<(), Fail> {
    let alloc = rt.alloc();
    let too_long = "1 error: 7 TextTooLong length=1048577⏎";
    check_copies(&rt, alloc, "\n", 1_048_576, "0")?;
    check_copies(&rt, alloc, "\n", 1_048_577, too_long)?;
    check_copies(&rt, alloc, "\n", 1_048_600, too_long)
}

#[test]
fn limits_of_a_program(rt: HostRuntime) -> Result<(), Fail> {
    let alloc = rt.alloc();
    let too_many = "1 error: 23 TooManyInstructions count=65537⏎";
    check_copies(&rt, alloc, "X 0\n", 65_536, "0")?;
    check_copies(&rt, alloc, "X 0\n", 65_537, too_many)?;
    let zeros = repeated(alloc, " 0", 65_535)?;
    let memory = format!(in alloc; "0 aa:{}⏎bb: 0⏎", zeros.as_str())?;
    check_copies(
        &rt,
        alloc,
        "DECLARE aa BIT[65535]\nDECLARE bb BIT",
        1,
        &memory,
    )
}

#[test]
fn as_many_steps_as_a_program_has(rt: HostRuntime) -> Result<(), Fail> {
    check_copies(&rt, rt.alloc(), "NOP\n", 65_536, "0")?;
    check_copies(&rt, rt.alloc(), "H 0\n", 65_536, "0")
}

// The last 64 bits of a memory of 65,536.
#[test]
fn the_end_of_memory(rt: HostRuntime) -> Result<(), Fail> {
    let alloc = rt.alloc();
    let front = "DECLARE x INTEGER[1024]\nDECLARE b BIT[3] SHARING x OFFSET 65533 BIT\n";
    let text = format!(in alloc; "{front}MOVE x[1023] -9223372036854775808\n")?;
    let zeros = repeated(alloc, " 0", 1023)?;
    let want = format!(in alloc; "0 x:{} -9223372036854775808⏎b: 0 0 1⏎", zeros.as_str())?;
    assert_eq!(rt; told(alloc, &text, 0)?.as_str(), want.as_str());
    Ok(())
}

// Word 3 of the zero seed is below 2^31, so the RESET behind three others finds a 1, and with it all qubits are 1.
#[test]
fn reset_of_one_in_sixteen(rt: HostRuntime) -> Result<(), Fail> {
    let alloc = rt.alloc();
    let mut text = String::from_str(alloc, "DECLARE ro BIT[16]\n")?;
    text.push_str("RESET 9\nRESET 9\nRESET 9\nH 0\n")?;
    for q in 1..16 {
        text.push_str(&format!(in alloc; "CNOT 0 {q}\n")?)?;
    }
    text.push_str("RESET 0\n")?;
    for q in 0..16 {
        text.push_str(&format!(in alloc; "MEASURE {q} ro[{q}]\n")?)?;
    }
    let output = "0 ro: 0 1 1 1 1 1 1 1 1 1 1 1 1 1 1 1⏎";
    assert_eq!(rt; told(alloc, &text, 0)?.as_str(), output);
    Ok(())
}

// X on three of sixteen qubits, and H twice on each.
#[test]
fn h_twice_on_each_qubit(rt: HostRuntime) -> Result<(), Fail> {
    let alloc = rt.alloc();
    let mut text = String::from_str(alloc, "DECLARE ro BIT[16]\nX 1\nX 4\nX 15\n")?;
    for _ in 0..2 {
        for q in 0..16 {
            text.push_str(&format!(in alloc; "H {q}\n")?)?;
        }
    }
    for q in 0..16 {
        text.push_str(&format!(in alloc; "MEASURE {q} ro[{q}]\n")?)?;
    }
    let output = "0 ro: 0 1 0 0 1 0 0 0 0 0 0 0 0 0 0 1⏎";
    assert_eq!(rt; told(alloc, &text, 0)?.as_str(), output);
    Ok(())
}
