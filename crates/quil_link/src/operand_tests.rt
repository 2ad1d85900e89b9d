//! Operands that are expressions: the literal that `MOVE` gets, or the refusal, worked out by hand.

use crate::load;
use crate::tests::{REGIONS, Said, refusal_text, told};
use quil_code::{Classic, Instruction, Source};
use std::alloc::Global;
use std::test::*;

// The literal that a program moves at its end, or its refusal.
fn moved(alloc: Global, text: &str) -> Said {
    let code = match load(alloc, text.as_bytes()) {
        Ok(code) => code,
        Err(fault) => return refusal_text(alloc, &fault),
    };
    match code.lines().last().map(|line| line.instruction) {
        Some(
            Instruction::Classic(
                Classic::Move {
                    source: Source::Literal(number),
                    ..
                },
            ),
        ) => Ok(format!(in alloc; "{number}")?),
        _ => told(alloc, text, 0),
    }
}

#[test]
fn operands_have_these_values(rt: HostRuntime) -> Result<(), Fail> {
    let alloc = rt.alloc();
    let table = "b (1) => 1
b 1-1 => 0
b 3-2 => 1
b 2-3 => 26 TypeClash line=2
b 1+1 => 26 TypeClash line=2
b 1/2 => 26 TypeClash line=2
b sqrt(1) => 1
b cos(pi/2) => 0
b i*-i => 1
b i*i => 26 TypeClash line=2
b pi-pi => 10 UnknownRegion word=pi-pi
o 2^8-1 => 255
o 2^8 => 26 TypeClash line=2
o 0-1 => 26 TypeClash line=2
o 255.0 => 255
n 2^62 => 4611686018427387904
n -2^62 => -4611686018427387904
n 2^62+1 => 4 NumberTooWide column=8 line=2
n 2^63 => 4 NumberTooWide column=8 line=2
n (9223372036854775807) => 4 NumberTooWide column=9 line=2
n 18446744073709551616+1 => 4 NumberTooWide column=8 line=2
n 1+i - i => 1
n 1+i-i => 6 Unexpected column=10 line=2
n sqrt(2)^2 => 2
n sqrt(2) => 26 TypeClash line=2
n i => 26 TypeClash line=2
n pi => 26 TypeClash line=2
n 1/3 => 26 TypeClash line=2
n 1/3*3 => 1
n 0.5 => 26 TypeClash line=2
n 0.5+0.5 => 1
n 1e3 => 1000
n exp(i*pi) => -1
n 0^0 => 1
n 0^-1 => 3 ZeroDivisor column=8 line=2
n 2^64 => 4 NumberTooWide column=8 line=2
n 2^65 => 2 NotExact column=8 line=2
r pi/4 => 1
r -pi => -4
r 2*pi => 8
r pi/8 => 26 TypeClash line=2
r pi - pi => 0
r 0.0 => 0
r 1 - 1 => 0
r 1+1 => 26 TypeClash line=2
r i*pi => 26 TypeClash line=2
r 2305843009213693951*pi => 9223372036854775804
r 2305843009213693952*pi => 26 TypeClash line=2
r -2305843009213693952*pi => -9223372036854775808
r 2305843009213693952*pi - pi/4 => 4 NumberTooWide column=8 line=2
r 1/0 => 3 ZeroDivisor column=8 line=2
r (1+1)/0 => 3 ZeroDivisor column=8 line=2
r ((1/0)) => 3 ZeroDivisor column=10 line=2
r pi*(1/0) => 3 ZeroDivisor column=12 line=2
r sin(1) => 2 NotExact column=8 line=2
r sin(1)+1/0 => 2 NotExact column=8 line=2
r 1/0+sin(1) => 3 ZeroDivisor column=8 line=2
";
    for row in table.lines() {
        let (operands, want) = row.split_once(" => ").unwrap_or((row, "no row"));
        let said = moved(alloc, &format!(in alloc; "{REGIONS}MOVE {operands}")?)?;
        assert_eq!(rt; said.as_str(), want, "at {row}");
    }
    Ok(())
}
