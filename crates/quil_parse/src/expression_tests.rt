use crate::tree_text::{expression_misses, expression_misses_with};
use std::test::*;

// Each text's steps by hand: the loosest operator last, and each operation at its first byte.
#[test]
fn expressions_have_these_steps(rt: HostRuntime) -> Result<(), Fail> {
    let table = "
pi/2 => (pi@1:1 2@1:4 /@1:1)
7 => (7@1:1)
007 => (007@1:1)
1.5 => (1.5@1:1)
2e3 => (2e3@1:1)
2e3i => (2e3i@1:1)
i => (i@1:1)
99999999999999999999 => (99999999999999999999@1:1)
1⏎+2 => (1@1:1 2@2:2 +@1:1)
1 +\r⏎\r⏎\t2⏎ => (1@1:1 2@3:2 +@1:1)
1+2 # three => (1@1:1 2@1:3 +@1:1)
# one⏎1 => (1@2:1)
1-2-3 => (1@1:1 2@1:3 -@1:1 3@1:5 -@1:1)
1-2+3 => (1@1:1 2@1:3 -@1:1 3@1:5 +@1:1)
8/4/2 => (8@1:1 4@1:3 /@1:1 2@1:5 /@1:1)
8/4*2 => (8@1:1 4@1:3 /@1:1 2@1:5 *@1:1)
1-2*3 => (1@1:1 2@1:3 3@1:5 *@1:3 -@1:1)
1*2-3 => (1@1:1 2@1:3 *@1:1 3@1:5 -@1:1)
2^3^4 => (2@1:1 3@1:3 4@1:5 ^@1:3 ^@1:1)
2*3^4 => (2@1:1 3@1:3 4@1:5 ^@1:3 *@1:1)
2^3*4 => (2@1:1 3@1:3 ^@1:1 4@1:5 *@1:1)
-2^2 => (2@1:2 2@1:4 ^@1:2 minus@1:1)
2^-1 => (2@1:1 1@1:4 minus@1:3 ^@1:1)
2^--1 => (2@1:1 1@1:5 minus@1:4 minus@1:3 ^@1:1)
2^-3^4 => (2@1:1 3@1:4 4@1:6 ^@1:4 minus@1:3 ^@1:1)
2^-3*4 => (2@1:1 3@1:4 minus@1:3 ^@1:1 4@1:6 *@1:1)
-1*2 => (1@1:2 minus@1:1 2@1:4 *@1:1)
1*-2 => (1@1:1 2@1:4 minus@1:3 *@1:1)
1--2 => (1@1:1 2@1:4 minus@1:3 -@1:1)
+-1 => (1@1:3 minus@1:2 plus@1:1)
(1) => (1@1:2)
(1)+2 => (1@1:2 2@1:5 +@1:1)
((1+2))*3 => (1@1:3 2@1:5 +@1:3 3@1:9 *@1:1)
(1+2)^(3) => (1@1:2 2@1:4 +@1:2 3@1:8 ^@1:1)
-(1) => (1@1:3 minus@1:1)
sqrt(2) => (2@1:6 sqrt@1:1)
cis(pi/4)^2 => (pi@1:5 4@1:8 /@1:5 cis@1:1 2@1:11 ^@1:1)
sin ( cos(exp(0)) ) => (0@1:15 exp@1:11 cos@1:7 sin@1:1)
ro => (ro[0]@1:1)
ro[3] => (ro[3]@1:1)
ro [ 003 ] + 1 => (ro[003=3]@1:1 1@1:14 +@1:1)
ro[18446744073709551615] => (ro[18446744073709551615]@1:1)
a-b => (a-b[0]@1:1)
a - b => (a[0]@1:1 b[0]@1:5 -@1:1)
OR*TRUE => (OR[0]@1:1 TRUE[0]@1:4 *@1:1)
%b+%a*%b => (%0@1:1 %1@1:4 %0@1:7 *@1:4 +@1:1)
%i^%HALT => (%0@1:1 %1@1:4 ^@1:1)
2^+1 => (2@1:1 1@1:4 plus@1:3 ^@1:1)
(-1)^2 => (1@1:3 minus@1:2 2@1:6 ^@1:1)
2^(3)^4 => (2@1:1 3@1:4 4@1:7 ^@1:3 ^@1:1)
1-(2-3) => (1@1:1 2@1:4 3@1:6 -@1:4 -@1:1)
8/(4*2) => (8@1:1 4@1:4 2@1:6 *@1:4 /@1:1)
pi-1 => (pi-1[0]@1:1)
HALT-1*i-1 => (HALT-1[0]@1:1 i-1[0]@1:8 *@1:1)
2i => (2i@1:1)
2i-x => (2i@1:1 x[0]@1:4 -@1:1)
PI+halt+Sqrt => (PI[0]@1:1 halt[0]@1:4 +@1:1 Sqrt[0]@1:9 +@1:1)
%a+⏎%b+%a => (%0@1:1 %1@2:1 +@1:1 %0@2:4 +@1:1)
ro⏎[⏎3⏎] => (ro[3]@1:1)
1 # ; \" => (1@1:1)
INCLUDE+FALSE+DEFCAL+DEFFRAME => (INCLUDE[0]@1:1 FALSE[0]@1:9 +@1:1 DEFCAL[0]@1:15 +@1:1 DEFFRAME[0]@1:22 +@1:1)
PAULI-SUM*SEQUENCE*RAW-CAPTURE => (PAULI-SUM[0]@1:1 SEQUENCE[0]@1:11 *@1:1 RAW-CAPTURE[0]@1:20 *@1:1)
";
    assert_eq!(rt; expression_misses(rt.alloc(), table)?.as_str(), "");
    Ok(())
}

// Each fault stands at the first token with which no expression goes on, or behind the last line's last byte.
#[test]
fn expressions_break_here(rt: HostRuntime) -> Result<(), Fail> {
    let table = "
 => 6 1:1
⏎ => 6 1:1
⏎⏎ => 6 2:1
# c => 6 1:4
1+ => 6 1:3
1+⏎ => 6 1:3
1+⏎  # c⏎ => 6 2:6
1;2 => 6 1:2
1; => 6 1:2
1 2 => 6 1:3
1⏎2 => 6 2:1
*1 => 6 1:1
1**2 => 6 1:3
1^ => 6 1:3
^1 => 6 1:1
- => 6 1:2
( => 6 1:2
(1 => 6 1:3
() => 6 1:2
1) => 6 1:2
(1)) => 6 1:4
(1,2) => 6 1:3
sqrt => 6 1:5
sqrt 2 => 6 1:6
sqrt(2 => 6 1:7
sqrt() => 6 1:6
sqrt[1] => 6 1:5
SQRT(2) => 6 1:5
tan(1) => 6 1:4
pi(1) => 6 1:3
pi[0] => 6 1:3
ro[ => 6 1:4
ro[] => 6 1:4
ro[-1] => 6 1:4
ro[1.0] => 6 1:4
ro[1 => 6 1:5
ro[1+1] => 6 1:5
ro[1][2] => 6 1:6
HALT => 6 1:1
1+AS => 6 1:3
JUMP-WHEN => 6 1:1
\"a\" => 6 1:1
@a => 6 1:1
1. => 5 1:2
1 \"a => 5 1:3
1+⏎ $ => 5 2:2
1 2 $ => 6 1:3
ro[18446744073709551616] => 4 1:4
ro[018446744073709551616 => 4 1:4
ro[18446744073709551616 $ => 4 1:4
a- => 6 1:3
2i3 => 6 1:2
2 i => 6 1:3
%a[0] => 6 1:3
(1;2) => 6 1:3
;$ => 6 1:1
   => 6 1:3
1+\r⏎ => 6 1:3
1+\r => 5 1:3
$; => 5 1:1
% => 5 1:1
%1 => 5 1:1
.5 => 5 1:1
1+é => 5 1:3
$ro[18446744073709551616] => 5 1:1
1 2 ro[18446744073709551616] => 6 1:3
ro[1]+⏎ro[18446744073709551616] => 4 2:4
ro[18446744073709551616]+ro[18446744073709551617] => 4 1:4
";
    assert_eq!(rt; expression_misses(rt.alloc(), table)?.as_str(), "");
    Ok(())
}

// Each word of a statement or a definition is refused where an expression may stand, and read behind `%`.
#[test]
fn reserved_words_are_no_expressions(rt: HostRuntime) -> Result<(), Fail> {
    let words =
        "DECLARE BIT OCTET INTEGER REAL SHARING OFFSET DEFGATE AS MATRIX PERMUTATION DEFCIRCUIT CONTROLLED DAGGER FORKED MEASURE RESET WAIT NOP HALT PRAGMA LABEL JUMP JUMP-WHEN JUMP-UNLESS NOT NEG EXCHANGE CONVERT MOVE ADD SUB MUL DIV AND IOR XOR LOAD STORE EQ GT GE LT LE";
    let table = "
W => 6 1:1
%W => (%0@1:1)
";
    assert_eq!(rt;
        expression_misses_with(rt.alloc(), words, table)?.as_str(),
        ""
    );
    Ok(())
}
