//! Programs and refusals of texts, as the rules give them by hand. In a row `⏎` stands for a line feed.

use crate::load;
use quil_code::{Code, LoadFault};
use quil_memory::Layout;
use std::alloc::Global;
use std::test::*;

pub(crate) type Said = Result<String, Fail>;

// The qubits of a program, and its lines from this place on.
fn code_text(alloc: Global, code: &Code, from: usize) -> Said {
    let mut said = format!(in alloc; "{:?}", code.indices())?;
    for line in code.lines().iter().skip(from) {
        said.push_str(&format!(in alloc; " {} {:?};", line.number, line.instruction)?)?;
    }
    Ok(said)
}

pub(crate) fn refusal_text(alloc: Global, fault: &LoadFault) -> Said {
    let mut said = Vec::new(alloc);
    fault.diagnostic().push_text(alloc, &mut said)?;
    let said = str::from_utf8(&said).unwrap_or("?");
    Ok(format!(in alloc; "{said}")?)
}

// The program of a text without its first lines, or the text of the refusal.
pub(crate) fn told(alloc: Global, text: &str, from: usize) -> Said {
    match load(alloc, text.as_bytes()) {
        Ok(code) => code_text(alloc, &code, from),
        Err(fault) => refusal_text(alloc, &fault),
    }
}

// The first bits of the regions, and the bits of all.
fn layout_text(alloc: Global, layout: &Layout) -> Said {
    let mut said = String::new(alloc);
    for region in 0..layout.count() {
        let word = str::from_utf8(layout.name(region).as_bytes()).unwrap_or("?");
        let first = layout.first(region);
        said.push_str(&format!(in alloc; "{word} {first}, ")?)?;
    }
    said.push_str(&format!(in alloc; "{} bits", layout.bits())?)?;
    Ok(said)
}

// The rows whose texts, behind a front, say something else; a front has so many lines of a program.
fn misses(alloc: Global, front: &str, from: usize, table: &str) -> Said {
    let mut all = String::new(alloc);
    for row in table.lines() {
        let Some((text, want)) = row.split_once(" => ") else {
            all.push_str(row)?;
            continue;
        };
        let lines = text.replace(alloc, "⏎", "\n")?;
        let said = told(alloc, &format!(in alloc; "{front}{lines}")?, from)?;
        if said.as_str() != want {
            all.push_str(&format!(in alloc; "{text} => {said}\n")?)?;
        }
    }
    Ok(all)
}

#[test]
fn regions_are_laid_out_so(rt: HostRuntime) -> Result<(), Fail> {
    let alloc = rt.alloc();
    let table = "DECLARE a BIT => a 0, 1 bits
DECLARE a BIT[3]⏎DECLARE b OCTET[2]⏎DECLARE c INTEGER⏎DECLARE d REAL => a 0, b 3, c 19, d 83, 147 bits
DECLARE a BIT⏎DECLARE a BIT => 9 Redeclared word=a
DECLARE a BIT⏎DECLARE A BIT => a 0, A 1, 2 bits
DECLARE a BIT SHARING b => 10 UnknownRegion word=b
DECLARE a BIT SHARING a => 10 UnknownRegion word=a
DECLARE a BIT SHARING b⏎DECLARE b BIT => 10 UnknownRegion word=b
DECLARE a BIT[8]⏎DECLARE b BIT[8] SHARING a => a 0, b 0, 8 bits
DECLARE a BIT[8]⏎DECLARE b BIT[9] SHARING a => 11 ShareOutside word=b
DECLARE a BIT[8]⏎DECLARE b BIT[7] SHARING a OFFSET 1 BIT => a 0, b 1, 8 bits
DECLARE a BIT[8]⏎DECLARE b BIT[8] SHARING a OFFSET 1 BIT => 11 ShareOutside word=b
DECLARE a BIT[8]⏎DECLARE b OCTET SHARING a => a 0, b 0, 8 bits
DECLARE a BIT[9]⏎DECLARE b OCTET SHARING a OFFSET 1 BIT => 12 Misaligned word=b
DECLARE a BIT⏎DECLARE b OCTET[2]⏎DECLARE c OCTET SHARING b OFFSET 1 OCTET => a 0, b 1, c 9, 17 bits
DECLARE a BIT⏎DECLARE b BIT[80]⏎DECLARE c OCTET SHARING b OFFSET 7 BIT => 12 Misaligned word=c
DECLARE a INTEGER[4]⏎DECLARE b BIT[5] SHARING a OFFSET 1 REAL 2 OCTET 3 BIT => a 0, b 83, 256 bits
DECLARE a BIT[7]⏎DECLARE b INTEGER[4]⏎DECLARE c OCTET[9] SHARING b OFFSET 1 INTEGER⏎DECLARE d OCTET SHARING c OFFSET 8 BIT => a 0, b 7, c 71, d 79, 263 bits
DECLARE a BIT[7]⏎DECLARE b INTEGER[4]⏎DECLARE c BIT[72] SHARING b OFFSET 1 INTEGER⏎DECLARE d INTEGER SHARING c OFFSET 8 BIT => 12 Misaligned word=d
DECLARE a INTEGER[4]⏎DECLARE b OCTET[9] SHARING a OFFSET 1 INTEGER⏎DECLARE c INTEGER SHARING b OFFSET 1 OCTET => 12 Misaligned word=c
DECLARE a INTEGER[4]⏎DECLARE b BIT[63] SHARING a OFFSET 1 BIT⏎DECLARE c BIT[64] SHARING b => 11 ShareOutside word=c
DECLARE a BIT[64]⏎DECLARE b BIT[64] SHARING a OFFSET 0 BIT 0 REAL => a 0, b 0, 64 bits
DECLARE a BIT[64]⏎DECLARE b BIT SHARING a OFFSET 18446744073709551615 REAL => 11 ShareOutside word=b
DECLARE a BIT[64]⏎DECLARE b BIT SHARING a OFFSET 18446744073709551615 REAL 18446744073709551615 REAL 1 BIT => 11 ShareOutside word=b
DECLARE a BIT[64]⏎DECLARE b REAL[18446744073709551615] SHARING a => 11 ShareOutside word=b
DECLARE a BIT[64]⏎DECLARE a BIT SHARING b => 9 Redeclared word=a
DECLARE a BIT[64]⏎DECLARE a BIT[65] SHARING a => 9 Redeclared word=a
DECLARE a BIT[64]⏎DECLARE a OCTET SHARING a OFFSET 1 BIT => 9 Redeclared word=a
DECLARE a BIT[64]⏎DECLARE a REAL[1024] => 9 Redeclared word=a
DECLARE a BIT[64]⏎DECLARE b BIT[65] SHARING c => 10 UnknownRegion word=c
DECLARE a BIT[64]⏎DECLARE b OCTET SHARING c OFFSET 1 BIT => 10 UnknownRegion word=c
DECLARE a BIT[64]⏎DECLARE b OCTET[8] SHARING a OFFSET 1 BIT => 11 ShareOutside word=b
DECLARE a BIT[64]⏎DECLARE b BIT[65473] => 13 MemoryTooLarge bits=65537
DECLARE a BIT[65536] => a 0, 65536 bits
DECLARE a BIT[65537] => 13 MemoryTooLarge bits=65537
DECLARE a REAL[1024] => a 0, 65536 bits
DECLARE a REAL[1024]⏎DECLARE b REAL[1024] SHARING a⏎DECLARE c BIT[65536] SHARING b => a 0, b 0, c 0, 65536 bits
DECLARE a REAL[1024]⏎DECLARE b BIT => 13 MemoryTooLarge bits=65537
DECLARE a REAL[1025] => 13 MemoryTooLarge bits=65600
DECLARE a BIT[18446744073709551615] => 13 MemoryTooLarge bits=18446744073709551615
DECLARE a REAL[18446744073709551615] => 13 MemoryTooLarge bits=18446744073709551615
DECLARE a BIT[2]⏎DECLARE b BIT[18446744073709551614] => 13 MemoryTooLarge bits=18446744073709551615
DECLARE a BIT⏎DECLARE b BIT[18446744073709551614] => 13 MemoryTooLarge bits=18446744073709551615
DECLARE a BIT⏎DECLARE b BIT[18446744073709551613] => 13 MemoryTooLarge bits=18446744073709551614
";
    for row in table.lines() {
        let (text, want) = row.split_once(" => ").unwrap_or(("", ""));
        let text = text.replace(alloc, "⏎", "\n")?;
        let said = match load(alloc, text.as_bytes()) {
            Ok(code) => layout_text(alloc, code.layout())?,
            Err(fault) => refusal_text(alloc, &fault)?,
        };
        assert_eq!(rt; said.as_str(), want, "at {row}");
    }
    Ok(())
}

#[test]
fn texts_are_these_programs(rt: HostRuntime) -> Result<(), Fail> {
    let table = "
 => []
PRAGMA a⏎NOP⏎⏎WAIT; HALT => [] 1 Passive; 2 Nop; 4 Wait; 4 Halt;
X 37⏎H 31⏎CNOT 30 37⏎MEASURE 31 => [30, 31, 37] 1 X(2); 2 H(1); 3 Cnot(0, 2); 4 Measure(1, None);
X 65535⏎X 0 => [0, 65535] 1 X(1); 2 X(0);
CNOT 9 4⏎CNOT 4 9 => [4, 9] 1 Cnot(1, 0); 2 Cnot(0, 1);
X 0;X 1;X 2;X 3;X 4;X 5;X 6;X 7;X 8;X 9;X 10;X 11;X 12;X 13;X 14;X 16 => [0, 1, 2, 3, 4, 5, 6, 7, 8, 9, 10, 11, 12, 13, 14, 16] 1 X(0); 1 X(1); 1 X(2); 1 X(3); 1 X(4); 1 X(5); 1 X(6); 1 X(7); 1 X(8); 1 X(9); 1 X(10); 1 X(11); 1 X(12); 1 X(13); 1 X(14); 1 X(15);
X 0;X 1;X 2;X 3;X 4;X 5;X 6;X 7;X 8;X 9;X 10;X 11;X 12;X 13;X 14;RESET 15;RESET;MEASURE 16 => 27 TooManyQubits count=17
X 0;X 1;X 2;X 3;X 4;X 5;X 6;X 7;X 8;X 9;X 10;X 11;X 12;X 13;X 14;CNOT 15 16;CNOT 17 17 => 19 RepeatedQubit line=1
DECLARE a BIT[9]⏎DECLARE b BIT[2]⏎MEASURE 3 b[1] => [3] 1 Passive; 2 Passive; 3 Measure(0, Some(Cell { first: 10 }));
MOVE b 1⏎DECLARE a INTEGER⏎DECLARE b BIT[4] SHARING a OFFSET 1 OCTET 2 BIT => [] 1 Classic(Move { kind: Bit, target: Cell { first: 10 }, source: Literal(1) }); 2 Passive; 3 Passive;
DECLARE a BIT[65536]⏎NOT a[65535] => [] 1 Passive; 2 Classic(Not { kind: Bit, target: Cell { first: 65535 } });
DECLARE a BIT⏎DECLARE A BIT⏎NOT A => [] 1 Passive; 2 Passive; 3 Classic(Not { kind: Bit, target: Cell { first: 1 } });
DECLARE a BIT⏎DECLARE a BIT => 9 Redeclared word=a
DECLARE a BIT SHARING b⏎DECLARE b BIT => 10 UnknownRegion word=b
DECLARE a OCTET⏎DECLARE b BIT[8] SHARING a OFFSET 1 BIT => 11 ShareOutside word=b
DECLARE a INTEGER⏎DECLARE b OCTET SHARING a OFFSET 4 BIT => 12 Misaligned word=b
DECLARE a BIT⏎DECLARE b INTEGER[1024] => 13 MemoryTooLarge bits=65537
MOVE a $ => 5 BadToken column=8 line=1
X 65536 => 4 NumberTooWide column=3 line=1
OR a b => 8 LeftOut line=1 word=OR
LABEL @a⏎MOVE a ) => 6 Unexpected column=8 line=2
DECLARE a BIT⏎DECLARE a BIT⏎LABEL @a => 57 NotBuilt line=3
LABEL @a⏎DECLARE a BIT⏎DECLARE a BIT => 57 NotBuilt line=1
X⏎LABEL @a => 57 NotBuilt line=2
RESET 0⏎⏎LABEL @a => 57 NotBuilt line=3
DECLARE a BIT⏎MOVE a 2⏎LABEL @a => 57 NotBuilt line=3
LABEL @a⏎MOVE a 18446744073709551616 => 4 NumberTooWide column=8 line=2
LABEL @a⏎MOVE a 18446744073709551616+1 => 57 NotBuilt line=1
DECLARE n INTEGER⏎MOVE n 1/0⏎MOVE c 1 => 3 ZeroDivisor column=8 line=2
DECLARE n INTEGER⏎MOVE c 1⏎MOVE n 1/0 => 10 UnknownRegion word=c
DECLARE n INTEGER⏎MOVE n 1/0⏎CNOT 3 3 => 3 ZeroDivisor column=8 line=2
DECLARE n INTEGER⏎CNOT 3 3⏎MOVE n 1/0 => 19 RepeatedQubit line=2
DECLARE n INTEGER⏎MOVE n sin(1)⏎MOVE n 2^63 => 2 NotExact column=8 line=2
DECLARE n INTEGER⏎MOVE n 2^63⏎MOVE n sin(1) => 4 NumberTooWide column=8 line=2
DECLARE n INTEGER⏎NOP; MOVE n 1/0 => 3 ZeroDivisor column=13 line=2
MOVE n 1/0⏎X⏎DECLARE n INTEGER => 18 Arity line=2
X⏎DECLARE a BIT⏎DECLARE a BIT => 9 Redeclared word=a
DECLARE a BIT⏎DECLARE a BIT⏎X => 9 Redeclared word=a
DECLARE b BIT SHARING a⏎DECLARE c BIT⏎DECLARE c BIT => 10 UnknownRegion word=a
DECLARE c BIT⏎DECLARE c BIT⏎DECLARE b BIT SHARING a => 9 Redeclared word=c
MOVE c 1⏎X => 18 Arity line=2
X⏎MOVE c 1 => 18 Arity line=1
H⏎⏎CNOT 0 => 18 Arity line=1
DECLARE a BIT⏎MOVE a[1] 1⏎MOVE c 1 => 14 OutOfRange index=1 length=1 word=a
DECLARE a BIT⏎MOVE c 1⏎MOVE a[1] 1 => 10 UnknownRegion word=c
DECLARE a BIT⏎MOVE a 2⏎MOVE a[1] 1 => 26 TypeClash line=2
DECLARE a BIT⏎MOVE a[1] 1⏎MOVE a 2 => 14 OutOfRange index=1 length=1 word=a
DECLARE a BIT⏎MOVE a 2⏎⏎CNOT 3 3 => 26 TypeClash line=2
DECLARE a BIT⏎CNOT 3 3⏎⏎MOVE a 2 => 19 RepeatedQubit line=2
CNOT 3 3⏎MOVE c 1 => 19 RepeatedQubit line=1
DECLARE a INTEGER⏎DECLARE b BIT[65] SHARING a⏎DECLARE c OCTET SHARING a OFFSET 4 BIT => 11 ShareOutside word=b
DECLARE a INTEGER⏎DECLARE c OCTET SHARING a OFFSET 4 BIT⏎DECLARE b BIT[65] SHARING a => 12 Misaligned word=c
DECLARE a INTEGER⏎DECLARE b BIT[65] SHARING a⏎DECLARE d INTEGER[1024] => 11 ShareOutside word=b
DECLARE a INTEGER⏎DECLARE d INTEGER[1024]⏎DECLARE b BIT[65] SHARING a => 13 MemoryTooLarge bits=65600
DECLARE a INTEGER⏎DECLARE c OCTET SHARING a OFFSET 4 BIT⏎DECLARE d INTEGER[1024] => 12 Misaligned word=c
DECLARE a INTEGER⏎DECLARE d INTEGER[1024]⏎DECLARE c OCTET SHARING a OFFSET 4 BIT => 13 MemoryTooLarge bits=65600
DECLARE b BIT SHARING a⏎DECLARE d INTEGER[1025] => 10 UnknownRegion word=a
DECLARE d INTEGER[1025]⏎DECLARE b BIT SHARING a => 13 MemoryTooLarge bits=65600
DECLARE a BIT⏎DECLARE a BIT⏎DECLARE d INTEGER[1024] => 9 Redeclared word=a
DECLARE a BIT⏎DECLARE d INTEGER[1024]⏎DECLARE a BIT => 13 MemoryTooLarge bits=65537
X 0;X 1;X 2;X 3;X 4;X 5;X 6;X 7;X 8;X 9;X 10;X 11;X 12;X 13;X 14;X 15;X 16⏎MOVE c 1 => 10 UnknownRegion word=c
X 0;X 1;X 2;X 3;X 4;X 5;X 6;X 7;X 8;X 9;X 10;X 11;X 12;X 13;X 14;X 15;X 16⏎DECLARE b BIT⏎MOVE b[1] 1 => 14 OutOfRange index=1 length=1 word=b
X 0;X 1;X 2;X 3;X 4;X 5;X 6;X 7;X 8;X 9;X 10;X 11;X 12;X 13;X 14;X 15;X 16⏎DECLARE b BIT⏎MOVE b 2 => 26 TypeClash line=3
X 0;X 1;X 2;X 3;X 4;X 5;X 6;X 7;X 8;X 9;X 10;X 11;X 12;X 13;X 14;X 15;X 16⏎DECLARE n INTEGER⏎MOVE n 1/0 => 3 ZeroDivisor column=8 line=3
";
    assert_eq!(rt; misses(rt.alloc(), "", 0, table)?.as_str(), "");
    Ok(())
}

// The bits of `b` begin at 0, those of `o` at 2, of `n` at 18, of `r` at 146.
pub(crate) const REGIONS: &str =
    "DECLARE b BIT[2];DECLARE o OCTET[2];DECLARE n INTEGER[2];DECLARE r REAL[2]\n";

#[test]
fn instructions_are_linked_so(rt: HostRuntime) -> Result<(), Fail> {
    let table = "
MOVE b[1] 1 => [] 2 Classic(Move { kind: Bit, target: Cell { first: 1 }, source: Literal(1) });
MOVE b +0 => [] 2 Classic(Move { kind: Bit, target: Cell { first: 0 }, source: Literal(0) });
MOVE o 255 => [] 2 Classic(Move { kind: Octet, target: Cell { first: 2 }, source: Literal(255) });
MOVE n -9223372036854775808 => [] 2 Classic(Move { kind: Integer, target: Cell { first: 18 }, source: Literal(-9223372036854775808) });
MOVE n[1] 9223372036854775807 => [] 2 Classic(Move { kind: Integer, target: Cell { first: 82 }, source: Literal(9223372036854775807) });
MOVE r -0 => [] 2 Classic(Move { kind: Real, target: Cell { first: 146 }, source: Literal(0) });
MOVE o[1] o => [] 2 Classic(Move { kind: Octet, target: Cell { first: 10 }, source: FromCell(Cell { first: 2 }) });
MOVE b 2 => 26 TypeClash line=2
MOVE b -1 => 26 TypeClash line=2
MOVE o 256 => 26 TypeClash line=2
MOVE o -1 => 26 TypeClash line=2
MOVE n 9223372036854775808 => 26 TypeClash line=2
MOVE n -9223372036854775809 => 26 TypeClash line=2
MOVE n 18446744073709551615 => 26 TypeClash line=2
MOVE r 1 => 26 TypeClash line=2
MOVE o b => 26 TypeClash line=2
MOVE n r => 26 TypeClash line=2
EXCHANGE r r[1] => [] 2 Classic(Exchange { kind: Real, one: Cell { first: 146 }, other: Cell { first: 210 } });
EXCHANGE n r => 26 TypeClash line=2
ADD n -5 => [] 2 Classic(Sum { operation: Add, kind: Integer, target: Cell { first: 18 }, source: Literal(-5) });
SUB r r[1] => [] 2 Classic(Sum { operation: Sub, kind: Real, target: Cell { first: 146 }, source: FromCell(Cell { first: 210 }) });
ADD b 1 => 26 TypeClash line=2
SUB o o => 26 TypeClash line=2
MUL n 3 => [] 2 Classic(Product { operation: Mul, target: Cell { first: 18 }, source: Literal(3) });
DIV n n[1] => [] 2 Classic(Product { operation: Div, target: Cell { first: 18 }, source: FromCell(Cell { first: 82 }) });
MUL r 0 => 26 TypeClash line=2
DIV o 1 => 26 TypeClash line=2
NEG n => [] 2 Classic(Neg { kind: Integer, target: Cell { first: 18 } });
NEG r[1] => [] 2 Classic(Neg { kind: Real, target: Cell { first: 210 } });
NEG o => 26 TypeClash line=2
NOT b => [] 2 Classic(Not { kind: Bit, target: Cell { first: 0 } });
NOT o[1] => [] 2 Classic(Not { kind: Octet, target: Cell { first: 10 } });
NOT r => 26 TypeClash line=2
AND b 1 => [] 2 Classic(Bits { operation: And, kind: Bit, target: Cell { first: 0 }, source: Literal(1) });
IOR o o[1] => [] 2 Classic(Bits { operation: Ior, kind: Octet, target: Cell { first: 2 }, source: FromCell(Cell { first: 10 }) });
XOR n -1 => [] 2 Classic(Bits { operation: Xor, kind: Integer, target: Cell { first: 18 }, source: Literal(-1) });
AND r 0 => 26 TypeClash line=2
CONVERT b n => [] 2 Classic(Convert { kind: Bit, target: Cell { first: 0 }, from: Integer, source: Cell { first: 18 } });
CONVERT n o => [] 2 Classic(Convert { kind: Integer, target: Cell { first: 18 }, from: Octet, source: Cell { first: 2 } });
CONVERT n r => 26 TypeClash line=2
CONVERT r n => 26 TypeClash line=2
LOAD o[1] o n => [] 2 Classic(Load { kind: Octet, target: Cell { first: 10 }, span: Span { region: 1, first: 2, length: 2 }, index: Cell { first: 18 } });
LOAD n o n => 26 TypeClash line=2
LOAD o o o => 26 TypeClash line=2
STORE r n 0 => [] 2 Classic(Store { kind: Real, span: Span { region: 3, first: 146, length: 2 }, index: Cell { first: 18 }, source: Literal(0) });
STORE b n b[1] => [] 2 Classic(Store { kind: Bit, span: Span { region: 0, first: 0, length: 2 }, index: Cell { first: 18 }, source: FromCell(Cell { first: 1 }) });
STORE o n 256 => 26 TypeClash line=2
STORE o o 1 => 26 TypeClash line=2
EQ b n 5 => [] 2 Classic(Compare { comparison: Eq, kind: Integer, target: Cell { first: 0 }, left: Cell { first: 18 }, right: Literal(5) });
GT b o 255 => [] 2 Classic(Compare { comparison: Gt, kind: Octet, target: Cell { first: 0 }, left: Cell { first: 2 }, right: Literal(255) });
GE b b 0 => [] 2 Classic(Compare { comparison: Ge, kind: Bit, target: Cell { first: 0 }, left: Cell { first: 0 }, right: Literal(0) });
LT b[1] r r[1] => [] 2 Classic(Compare { comparison: Lt, kind: Real, target: Cell { first: 1 }, left: Cell { first: 146 }, right: FromCell(Cell { first: 210 }) });
LE b n -1 => [] 2 Classic(Compare { comparison: Le, kind: Integer, target: Cell { first: 0 }, left: Cell { first: 18 }, right: Literal(-1) });
GE b o 256 => 26 TypeClash line=2
GT o n n => 26 TypeClash line=2
LE b r 1 => 26 TypeClash line=2
EQ b n o => 26 TypeClash line=2
MEASURE 5 b[1] => [5] 2 Measure(0, Some(Cell { first: 1 }));
MEASURE 0 o => 26 TypeClash line=2
MEASURE 0 c => 10 UnknownRegion word=c
MOVE c 1 => 10 UnknownRegion word=c
MOVE b[2] 1 => 14 OutOfRange index=2 length=2 word=b
MOVE b[2] c => 14 OutOfRange index=2 length=2 word=b
MOVE c b[2] => 10 UnknownRegion word=c
MOVE b[2] 2 => 14 OutOfRange index=2 length=2 word=b
ADD b b[18446744073709551615] => 14 OutOfRange index=18446744073709551615 length=2 word=b
EXCHANGE b c => 10 UnknownRegion word=c
LOAD b[2] c d => 14 OutOfRange index=2 length=2 word=b
LOAD b c d => 10 UnknownRegion word=c
LOAD b r d => 10 UnknownRegion word=d
STORE c d e => 10 UnknownRegion word=c
STORE b d e => 10 UnknownRegion word=d
STORE b n[2] e => 14 OutOfRange index=2 length=2 word=n
STORE b o e => 10 UnknownRegion word=e
EQ c d e => 10 UnknownRegion word=c
EQ o d e => 10 UnknownRegion word=d
EQ o r n[3] => 14 OutOfRange index=3 length=2 word=n
MOVE b (1) => [] 2 Classic(Move { kind: Bit, target: Cell { first: 0 }, source: Literal(1) });
ADD n (2+3)*4 => [] 2 Classic(Sum { operation: Add, kind: Integer, target: Cell { first: 18 }, source: Literal(20) });
SUB r pi => [] 2 Classic(Sum { operation: Sub, kind: Real, target: Cell { first: 146 }, source: Literal(4) });
MUL n 2^5 => [] 2 Classic(Product { operation: Mul, target: Cell { first: 18 }, source: Literal(32) });
DIV n -2^2 => [] 2 Classic(Product { operation: Div, target: Cell { first: 18 }, source: Literal(-4) });
AND o 2^8-1 => [] 2 Classic(Bits { operation: And, kind: Octet, target: Cell { first: 2 }, source: Literal(255) });
XOR b 1-1 => [] 2 Classic(Bits { operation: Xor, kind: Bit, target: Cell { first: 0 }, source: Literal(0) });
STORE r n pi => [] 2 Classic(Store { kind: Real, span: Span { region: 3, first: 146, length: 2 }, index: Cell { first: 18 }, source: Literal(4) });
EQ b n i^2 => [] 2 Classic(Compare { comparison: Eq, kind: Integer, target: Cell { first: 0 }, left: Cell { first: 18 }, right: Literal(-1) });
GT b r -pi/4 => [] 2 Classic(Compare { comparison: Gt, kind: Real, target: Cell { first: 0 }, left: Cell { first: 146 }, right: Literal(-1) });
STORE o n 2^8 => 26 TypeClash line=2
LE b r (1) => 26 TypeClash line=2
LE b r 1.5 => 26 TypeClash line=2
MUL n pi => 26 TypeClash line=2
ADD b 1/0 => 26 TypeClash line=2
MUL r 1/0 => 26 TypeClash line=2
STORE o o 1/0 => 26 TypeClash line=2
GT o n 1/0 => 26 TypeClash line=2
ADD r 1/0 => 3 ZeroDivisor column=7 line=2
GE b n 1/0 => 3 ZeroDivisor column=8 line=2
STORE n n[1] sin(1) => 2 NotExact column=14 line=2
ADD c 1/0 => 10 UnknownRegion word=c
MOVE b[2] 1/0 => 14 OutOfRange index=2 length=2 word=b
STORE c n 1/0 => 10 UnknownRegion word=c
CNOT 1 1 => 19 RepeatedQubit line=2
X => 18 Arity line=2
H 0 0 => 18 Arity line=2
CNOT 0 => 18 Arity line=2
CNOT 0 1 2 => 18 Arity line=2
RESET => [] 2 Reset(None);
X 4⏎RESET 5⏎RESET 3 => [3, 4, 5] 2 X(1); 3 Reset(Some(2)); 4 Reset(Some(0));
LABEL @a => 57 NotBuilt line=2
JUMP @a => 57 NotBuilt line=2
JUMP-WHEN @a b => 57 NotBuilt line=2
JUMP-UNLESS @a c => 57 NotBuilt line=2
X(1) 0 => 57 NotBuilt line=2
DAGGER X 0 => 57 NotBuilt line=2
FORKED X 0 1 => 57 NotBuilt line=2
CONTROLLED X 0 1 => 57 NotBuilt line=2
x 0 => 57 NotBuilt line=2
CZ 0 1 => 57 NotBuilt line=2
NOP⏎DEFGATE A:⏎ 1, 0⏎ 0, 1 => 57 NotBuilt line=3
NOP⏎DEFCIRCUIT A q:⏎ X q => 57 NotBuilt line=3
";
    assert_eq!(rt; misses(rt.alloc(), REGIONS, 4, table)?.as_str(), "");
    Ok(())
}

// A front, so many copies of a piece, and an end, as `front+piece*count+end`.
fn long_text(alloc: Global, form: &str) -> Said {
    let form = form.replace(alloc, "⏎", "\n")?;
    let (front, rest) = form.split_once("+").unwrap_or(("", ""));
    let (pieces, end) = rest.split_once("+").unwrap_or(("", ""));
    let (piece, count) = pieces.split_once("*").unwrap_or(("", ""));
    let count: usize = count.parse().unwrap_or(0);
    let mut text = String::new(alloc);
    text.push_str(front)?;
    for _ in 0..count {
        text.push_str(piece)?;
    }
    text.push_str(end)?;
    Ok(text)
}

// How many lines the program of a text has, or the text of the refusal.
fn size(alloc: Global, text: &str) -> Said {
    match load(alloc, text.as_bytes()) {
        Ok(code) => Ok(format!(in alloc; "{}", code.len())?),
        Err(_) => told(alloc, text, 0),
    }
}

#[test]
fn long_texts(rt: HostRuntime) -> Result<(), Fail> {
    let alloc = rt.alloc();
    let table = "
+NOP⏎*65536+ => 65536
+NOP⏎*65537+ => 23 TooManyInstructions count=65537
+NOP⏎*65535+X => 18 Arity line=65536
+NOP⏎*65536+X => 23 TooManyInstructions count=65537
+NOP⏎*65536+DECLARE a BIT => 65537
+X⏎*65537+ => 18 Arity line=1
+PRAGMA a⏎*65537+ => 23 TooManyInstructions count=65537
+CNOT 7 9;H 5⏎*32768+ => 65536
X+ 0*100000+ => 18 Arity line=1
DECLARE a BIT⏎+MEASURE 0 a⏎*65000+MOVE a 2 => 26 TypeClash line=65002
+⏎*1048577+ => 7 TextTooLong length=1048577
";
    for row in table.lines() {
        let Some((form, want)) = row.split_once(" => ") else {
            continue;
        };
        let text = long_text(alloc, form)?;
        assert_eq!(rt; size(alloc, &text)?.as_str(), want, "at {form}");
    }
    Ok(())
}

// A name of three characters for each number, none of them a word of the language.
fn push_name(text: &mut String, number: usize) -> Result<(), Fail> {
    let firsts = "abcdefghijklmnopqrstuvwxyzABCDEFGHIJKLMNOPQRSTUVWXYZ".as_bytes();
    let seconds = "0123456789ABCDEFGHIJKLMNOPQRSTUVWXYZ".as_bytes();
    let thirds = "0123456789abcdefghijklmnopqrstuvwxyz".as_bytes();
    for (bytes, place) in [
        (firsts, number / 36 / 36),
        (seconds, number / 36 % 36),
        (thirds, number % 36),
    ] {
        let byte = bytes.get(place).copied().unwrap_or(b'_');
        text.push(char::from(byte))?;
    }
    Ok(())
}

#[test]
fn many_regions(rt: HostRuntime) -> Result<(), Fail> {
    let alloc = rt.alloc();
    let mut text = String::new(alloc);
    for number in 0..40_000 {
        text.push_str("DECLARE ")?;
        push_name(&mut text, number)?;
        text.push_str(" BIT\n")?;
    }
    for number in 0..40_000 {
        text.push_str("NOT ")?;
        push_name(&mut text, number)?;
        text.push_str("\n")?;
    }
    assert_eq!(rt; size(alloc, &text)?.as_str(), "80000");
    Ok(())
}
