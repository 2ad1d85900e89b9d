use crate::tree_text::misses_with;
use std::test::*;

#[test]
fn reserved_words_name_nothing_else(rt: HostRuntime) -> Result<(), Fail> {
    let words =
        "DECLARE BIT OCTET INTEGER REAL SHARING OFFSET DEFGATE AS MATRIX PERMUTATION DEFCIRCUIT CONTROLLED DAGGER FORKED MEASURE RESET WAIT NOP HALT PRAGMA LABEL JUMP JUMP-WHEN JUMP-UNLESS NOT NEG EXCHANGE CONVERT MOVE ADD SUB MUL DIV AND IOR XOR LOAD STORE EQ GT GE LT LE pi i sqrt sin cos cis exp";
    let table = "
DECLARE W BIT => 6 1:9
DECLARE x BIT SHARING W => 6 1:23
DEFGATE W:⏎ 1 => 6 1:9
DEFCIRCUIT W:⏎ X => 6 1:12
DEFCIRCUIT A W:⏎ X => 6 1:14
PRAGMA W => 6 1:8
MEASURE 0 W => 6 1:11
X W => 6 1:3
DEFCIRCUIT A:⏎ X W => 6 2:4
NOT W => 6 1:5
MOVE W 1 => 6 1:6
LOAD a W b => 6 1:8
STORE W a b => 6 1:7
JUMP W => 6 1:6
PRAGMA a W => 1:1 PRAGMA a@1:8 <W>
PRAGMA W1 => 1:1 PRAGMA W1@1:8
LABEL @W => 1:1 LABEL @W@1:7
DEFGATE A(%W):⏎ %W => 1:1 DEFGATE A@1:9 %W@1:11 {(%0@2:2)@2:2}
";
    assert_eq!(rt; misses_with(rt.alloc(), words, table)?.as_str(), "");
    Ok(())
}

#[test]
fn other_tokens_begin_no_statement(rt: HostRuntime) -> Result<(), Fail> {
    let tokens =
        "BIT OCTET INTEGER REAL SHARING OFFSET AS MATRIX PERMUTATION pi i sqrt sin cos cis exp ( ) [ ] , : + - * / ^ 5 65536 18446744073709551616 1.5 2i \"a\" %a @l";
    let table = "
W => 6 1:1
X; W $ => 6 1:4
DEFCIRCUIT A(%a):⏎ W => 6 2:2
DAGGER W X => 6 1:8
";
    assert_eq!(rt; misses_with(rt.alloc(), tokens, table)?.as_str(), "");
    Ok(())
}

#[test]
fn left_out_words_begin_no_statement(rt: HostRuntime) -> Result<(), Fail> {
    let words =
        "INCLUDE TRUE FALSE OR DEFCAL DEFFRAME DEFWAVEFORM PULSE CAPTURE RAW-CAPTURE DELAY FENCE";
    let table = "
W => 8 1 W
W 0 $ => 8 1 W
X⏎⏎X;W => 8 3 W
X⏎ W => 8 2 W
DEFCIRCUIT A:⏎ W => 8 2 W
DEFCIRCUIT A:⏎W => 8 2 W
DEFGATE G:⏎W => 8 2 W
DEFGATE G:⏎ W => 6 2:2
X W => 6 1:3
DECLARE W BIT => 1:1 DECLARE W@1:9 BIT[1]
DEFGATE W:⏎ 1 => 1:1 DEFGATE W@1:9 {(1@2:2)@2:2}
DEFCIRCUIT W:⏎ X => 1:1 DEFCIRCUIT W@1:12 {2:2 X@2:2}
DEFCIRCUIT A W:⏎ X W => 1:1 DEFCIRCUIT A@1:12 W@1:14 {2:2 X@2:2 $W@2:4}
DAGGER W => 1:1 DAGGER@1:1 W@1:8
PRAGMA W W => 1:1 PRAGMA W@1:8 <W>
X(W) => 1:1 X@1:1 (W[0]@1:3)@1:3
MEASURE 0 W[1] => 1:1 MEASURE 0@1:9 W[1]@1:11
JUMP @W => 1:1 JUMP @W@1:6
";
    assert_eq!(rt; misses_with(rt.alloc(), words, table)?.as_str(), "");
    Ok(())
}

#[test]
fn left_out_forms_of_a_gate(rt: HostRuntime) -> Result<(), Fail> {
    let table = "
DEFGATE G AS W => 8 1 W
DEFGATE G AS W:⏎ 1 => 8 1 W
⏎DEFGATE G(%a) AS W q: => 8 2 W
DEFGATE G W: => 6 1:11
DEFGATE G( AS W: => 6 1:12
DEFCIRCUIT A AS W: => 6 1:14
X AS W => 6 1:3
W => 1:1 W@1:1
DECLARE W BIT => 1:1 DECLARE W@1:9 BIT[1]
DEFGATE W AS MATRIX:⏎ 1 => 1:1 DEFGATE W@1:9 {(1@2:2)@2:2}
PRAGMA a AS W => 1:1 PRAGMA a@1:8 <AS> <W>
";
    assert_eq!(rt;
        misses_with(rt.alloc(), "PAULI-SUM SEQUENCE", table)?.as_str(),
        ""
    );
    Ok(())
}
