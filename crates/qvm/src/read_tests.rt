//! Which texts run however they are spelled, and the refusals of others.

use crate::tests::misses;
use std::test::*;

#[test]
fn other_spellings_run(rt: HostRuntime) -> Result<(), Fail> {
    let table = "
\t⏎;⏎;; => 0
X  0 # flip => 0
X 0; H 0 => 0
X\t0 => 0
X 0\r⏎ => 0
CNOT 1  2 => 0
HALT\r⏎ => 0
DECLARE ro BIT [1] => 0 ro: 0⏎
DECLARE ro BIT⏎X 0; MEASURE 0 ro [0] => 0 ro: 1⏎
# two bits⏎⏎DECLARE ro BIT[2]; X 1 # flip\r⏎MEASURE 1 ro[1] => 0 ro: 0 1⏎
PRAGMA a⏎DECLARE ro BIT⏎X 0⏎PRAGMA b 1 (2, x) \"c\"⏎MEASURE 0 ro⏎PRAGMA d => 0 ro: 1⏎
";
    assert_eq!(rt; misses(rt.alloc(), table)?.as_str(), "");
    Ok(())
}

#[test]
fn other_texts_are_refused(rt: HostRuntime) -> Result<(), Fail> {
    let table = "
X 4294967296 => 1 error: 4 NumberTooWide column=3 line=1⏎
X 0⏎X 65536 => 1 error: 4 NumberTooWide column=3 line=2⏎
DECLARE ro BIT[18446744073709551617] => 1 error: 4 NumberTooWide column=16 line=1⏎
DECLARE ro BIT⏎MEASURE 0 ro[99999999999999999999] => 1 error: 4 NumberTooWide column=14 line=2⏎
$ => 1 error: 5 BadToken column=1 line=1⏎
DECLARE `o BIT => 1 error: 5 BadToken column=9 line=1⏎
X 0\r => 1 error: 5 BadToken column=4 line=1⏎
X 16⏎⏎$ => 1 error: 5 BadToken column=1 line=3⏎
DECLARE pi BIT => 1 error: 6 Unexpected column=9 line=1⏎
DECLARE ro BIT[0] => 1 error: 6 Unexpected column=16 line=1⏎
DECLARE ro => 1 error: 6 Unexpected column=11 line=1⏎
DECLARE ro BIT⏎MEASURE 0 ro[0 => 1 error: 6 Unexpected column=15 line=2⏎
X a => 1 error: 6 Unexpected column=3 line=1⏎
 X 0 => 1 error: 6 Unexpected column=2 line=1⏎
HALT 0 => 1 error: 6 Unexpected column=6 line=1⏎
PRAGMA => 1 error: 6 Unexpected column=7 line=1⏎
OR => 1 error: 8 LeftOut line=1 word=OR⏎
X 0⏎⏎DEFCAL X 0: => 1 error: 8 LeftOut line=3 word=DEFCAL⏎
X 0; RAW-CAPTURE $ => 1 error: 8 LeftOut line=1 word=RAW-CAPTURE⏎
DECLARE r BIT; INCLUDE \"a\" => 1 error: 8 LeftOut line=1 word=INCLUDE⏎
RESET⏎X 0) => 1 error: 6 Unexpected column=4 line=2⏎
DECLARE a BIT⏎DECLARE a BIT => 1 error: 9 Redeclared word=a⏎
MEASURE 0 ro[0]⏎DECLARE rx BIT => 1 error: 10 UnknownRegion word=ro⏎
DECLARE x INTEGER⏎DECLARE b BIT[65] SHARING x⏎MOVE x 5⏎ => 1 error: 11 ShareOutside word=b⏎
DECLARE x INTEGER⏎DECLARE b BIT[3] SHARING x⏎DECLARE c OCTET SHARING x OFFSET 4 BIT⏎ => 1 error: 12 Misaligned word=c⏎
DECLARE aa BIT[65536]⏎DECLARE bb BIT => 1 error: 13 MemoryTooLarge bits=65537⏎
DECLARE ro BIT⏎MEASURE 0 ro[1] => 1 error: 14 OutOfRange index=1 length=1 word=ro⏎
X 0⏎X 0 1 => 1 error: 18 Arity line=2⏎
CNOT 3 3 => 1 error: 19 RepeatedQubit line=1⏎
DECLARE theta REAL⏎MOVE theta 1⏎ => 1 error: 26 TypeClash line=2⏎
DECLARE b BIT⏎ADD b 1/0⏎ => 1 error: 26 TypeClash line=2⏎
DECLARE x INTEGER⏎MOVE x 1/0⏎ => 1 error: 3 ZeroDivisor column=8 line=2⏎
DECLARE x INTEGER⏎MOVE x sin(1)⏎ => 1 error: 2 NotExact column=8 line=2⏎
DECLARE x INTEGER⏎MOVE x 2^63⏎ => 1 error: 4 NumberTooWide column=8 line=2⏎
X 0;X 1;X 2;X 3;X 4;X 5;X 6;X 7;X 8;X 9;X 10;X 11;X 12;X 13;X 14;X 15;X 16 => 1 error: 27 TooManyQubits count=17⏎
LABEL @a => 1 error: 57 NotBuilt line=1⏎
⏎ ⏎Y 0 => 1 error: 57 NotBuilt line=3⏎
DECLARE ro BIT⏎⏎HALT⏎LABEL @a⏎ => 1 error: 57 NotBuilt line=4⏎
X 0⏎⏎DEFGATE G:⏎ 1, 0⏎ 0, 1⏎X 16 => 1 error: 57 NotBuilt line=3⏎
PRAGMA a; DAGGER X 0 => 1 error: 57 NotBuilt line=1⏎
";
    assert_eq!(rt; misses(rt.alloc(), table)?.as_str(), "");
    Ok(())
}
