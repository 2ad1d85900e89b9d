use crate::tree_text::{misses, told};
use std::test::*;

#[test]
fn gates_have_these_trees(rt: HostRuntime) -> Result<(), Fail> {
    let table = "
X => 1:1 X@1:1
X 0 => 1:1 X@1:1 0@1:3
X\t0\t => 1:1 X@1:1 0@1:3
X 0 1 2 => 1:1 X@1:1 0@1:3 1@1:5 2@1:7
X 007 => 1:1 X@1:1 007=7@1:3
X 65535 => 1:1 X@1:1 65535@1:3
X 000065535 => 1:1 X@1:1 000065535=65535@1:3
_ 0 => 1:1 _@1:1 0@1:3
X-1 0 => 1:1 X-1@1:1 0@1:5
X(1)0 => 1:1 X@1:1 (1@1:3)@1:3 0@1:5
_a--b-1 0 => 1:1 _a--b-1@1:1 0@1:9
halt 0 => 1:1 halt@1:1 0@1:6
X(1) => 1:1 X@1:1 (1@1:3)@1:3
X (1) 0 => 1:1 X@1:1 (1@1:4)@1:4 0@1:7
X(18446744073709551616) 0 => 1:1 X@1:1 (18446744073709551616@1:3)@1:3 0@1:25
X(pi/2,-1) 0 => 1:1 X@1:1 (pi@1:3 2@1:6 /@1:3)@1:3 (1@1:9 minus@1:8)@1:8 0@1:12
X(pi-1) 0 => 1:1 X@1:1 (pi-1[0]@1:3)@1:3 0@1:9
X(pi -1) 0 => 1:1 X@1:1 (pi@1:3 1@1:7 -@1:3)@1:3 0@1:10
X(2-1) 0 => 1:1 X@1:1 (2@1:3 1@1:5 -@1:3)@1:3 0@1:8
X(2e-1) 0 => 1:1 X@1:1 (2e-1@1:3)@1:3 0@1:9
X(1.5i, i) 0 => 1:1 X@1:1 (1.5i@1:3)@1:3 (i@1:9)@1:9 0@1:12
RX((1+1)/0) 0 => 1:1 RX@1:1 (1@1:5 1@1:7 +@1:5 0@1:10 /@1:4)@1:4 0@1:13
RX(((0.5))) 0 => 1:1 RX@1:1 (0.5@1:6)@1:4 0@1:13
RX(ro[2]*b) 0 => 1:1 RX@1:1 (ro[2]@1:4 b[0]@1:10 *@1:4)@1:4 0@1:13
RX(-2^--x) 0 => 1:1 RX@1:1 (2@1:5 x[0]@1:9 minus@1:8 minus@1:7 ^@1:5 minus@1:4)@1:4 0@1:12
RX(cis(sqrt(2))) 0 => 1:1 RX@1:1 (2@1:13 sqrt@1:8 cis@1:4)@1:4 0@1:18
CONTROLLED X 0 1 => 1:1 CONTROLLED@1:1 X@1:12 0@1:14 1@1:16
DAGGER DAGGER S 0 => 1:1 DAGGER@1:1 DAGGER@1:8 S@1:15 0@1:17
FORKED RX(1,2) 0 1 => 1:1 FORKED@1:1 RX@1:8 (1@1:11)@1:11 (2@1:13)@1:13 0@1:16 1@1:18
FORKED FORKED FORKED FORKED X 0; FORKED X 0 => 1:1 FORKED@1:1 FORKED@1:8 FORKED@1:15 FORKED@1:22 X@1:29 0@1:31 | 1:34 FORKED@1:34 X@1:41 0@1:43
";
    assert_eq!(rt; misses(rt.alloc(), table)?.as_str(), "");
    Ok(())
}

#[test]
fn instructions_have_these_trees(rt: HostRuntime) -> Result<(), Fail> {
    let table = "
MEASURE 0 => 1:1 MEASURE 0@1:9
MEASURE 0 ro => 1:1 MEASURE 0@1:9 ro[0]@1:11
MEASURE 1 ro [ 03 ] => 1:1 MEASURE 1@1:9 ro[03=3]@1:11
RESET => 1:1 RESET
RESET 5 => 1:1 RESET 5@1:7
WAIT => 1:1 WAIT
MEASURE 65535 => 1:1 MEASURE 65535@1:9
MEASURE 0x1 => 1:1 MEASURE 0@1:9 x1[0]@1:10
LABEL@a--b => 1:1 LABEL @a--b@1:6
NOP => 1:1 NOP
HALT => 1:1 HALT
PRAGMA a => 1:1 PRAGMA a@1:8
PRAGMA a # b => 1:1 PRAGMA a@1:8
PRAGMA a b; X 0 => 1:1 PRAGMA a@1:8 <b> | 1:13 X@1:13 0@1:15
PRAGMA a AS HALT 2i- \"x # ; y\" => 1:1 PRAGMA a@1:8 <AS> <HALT> <2i> <-> <\"x # ; y\">
PRAGMA a 1.5e3,%p @l([^99999999999999999999 => 1:1 PRAGMA a@1:8 <1.5e3> <,> <%p> <@l> <(> <[> <^> <99999999999999999999>
PRAGMA PULSE OR => 1:1 PRAGMA PULSE@1:8 <OR>
LABEL @l => 1:1 LABEL @l@1:7
JUMP @HALT => 1:1 JUMP @HALT@1:6
JUMP-WHEN @l ro => 1:1 JUMP-WHEN @l@1:11 ro[0]@1:14
JUMP-UNLESS @l ro[2] => 1:1 JUMP-UNLESS @l@1:13 ro[2]@1:16
NOT a => 1:1 NOT a[0]@1:5
NEG a[1] => 1:1 NEG a[1]@1:5
EXCHANGE a b[1] => 1:1 EXCHANGE a[0]@1:10 b[1]@1:12
CONVERT a[1] b => 1:1 CONVERT a[1]@1:9 b[0]@1:14
MOVE a 5 => 1:1 MOVE a[0]@1:6 5@1:8
MOVE a[0]-5 => 1:1 MOVE a[0]@1:6 -5@1:10
MOVE a - 007 => 1:1 MOVE a[0]@1:6 -007=7@1:8
MOVE a --5 => 1:1 MOVE a[0]@1:6 (5@1:10 minus@1:9 minus@1:8)@1:8
MOVE a -(5) => 1:1 MOVE a[0]@1:6 (5@1:10 minus@1:8)@1:8
MOVE a 18446744073709551615 => 1:1 MOVE a[0]@1:6 18446744073709551615@1:8
MOVE a -18446744073709551615 => 1:1 MOVE a[0]@1:6 -18446744073709551615@1:8
MOVE a 18446744073709551616+1 => 1:1 MOVE a[0]@1:6 (18446744073709551616@1:8 1@1:29 +@1:8)@1:8
MOVE a 2e3 => 1:1 MOVE a[0]@1:6 (2e3@1:8)@1:8
MOVE a (5)^2 => 1:1 MOVE a[0]@1:6 (5@1:9 2@1:12 ^@1:8)@1:8
MOVE a -5*2 => 1:1 MOVE a[0]@1:6 (5@1:9 minus@1:8 2@1:11 *@1:8)@1:8
MOVE a 18446744073709551616^1 => 1:1 MOVE a[0]@1:6 (18446744073709551616@1:8 1@1:29 ^@1:8)@1:8
MOVE a (18446744073709551616) => 1:1 MOVE a[0]@1:6 (18446744073709551616@1:9)@1:8
MOVE a --18446744073709551616 => 1:1 MOVE a[0]@1:6 (18446744073709551616@1:10 minus@1:9 minus@1:8)@1:8
MOVE a[18446744073709551615] b => 1:1 MOVE a[18446744073709551615]@1:6 b[0]@1:30
ADD a -5 => 1:1 ADD a[0]@1:5 -5@1:7
SUB a + 5 => 1:1 SUB a[0]@1:5 +5@1:7
MUL a b => 1:1 MUL a[0]@1:5 b[0]@1:7
DIV a b[3] => 1:1 DIV a[0]@1:5 b[3]@1:7
AND a (5) => 1:1 AND a[0]@1:5 (5@1:8)@1:7
IOR a 1.5 => 1:1 IOR a[0]@1:5 (1.5@1:7)@1:7
XOR a 1+2 => 1:1 XOR a[0]@1:5 (1@1:7 2@1:9 +@1:7)@1:7
LOAD a x n => 1:1 LOAD a[0]@1:6 x@1:8 n[0]@1:10
LOAD a[1] x n[2] => 1:1 LOAD a[1]@1:6 x@1:11 n[2]@1:13
STORE x n a => 1:1 STORE x@1:7 n[0]@1:9 a[0]@1:11
STORE x n[1] -1 => 1:1 STORE x@1:7 n[1]@1:9 -1@1:14
EQ r a b => 1:1 EQ r[0]@1:4 a[0]@1:6 b[0]@1:8
GT r a 5 => 1:1 GT r[0]@1:4 a[0]@1:6 5@1:8
GE r[1] a[2] 2*3 => 1:1 GE r[1]@1:4 a[2]@1:9 (2@1:14 3@1:16 *@1:14)@1:14
LT r a -5 => 1:1 LT r[0]@1:4 a[0]@1:6 -5@1:8
LE r a i => 1:1 LE r[0]@1:4 a[0]@1:6 (i@1:8)@1:8
";
    assert_eq!(rt; misses(rt.alloc(), table)?.as_str(), "");
    Ok(())
}

#[test]
fn definitions_have_these_trees(rt: HostRuntime) -> Result<(), Fail> {
    let table = "
DECLARE ro BIT => 1:1 DECLARE ro@1:9 BIT[1]
DECLARE ro OCTET[8] => 1:1 DECLARE ro@1:9 OCTET[8]
DECLARE x BIT[2]SHARING y => 1:1 DECLARE x@1:9 BIT[2] SHARING y@1:25
DEFGATE G(%a-b):⏎ %a-b -1 => 1:1 DEFGATE G@1:9 %a-b@1:11 {(%0@2:2 1@2:8 -@2:2)@2:2}
DEFCIRCUIT A q:⏎ X q⏎;X 1 => 1:1 DEFCIRCUIT A@1:12 q@1:14 {2:2 X@2:2 $q@2:4} | 3:2 X@3:2 1@3:4
DECLARE ro REAL [ 01 ] => 1:1 DECLARE ro@1:9 REAL[01=1]
DECLARE x INTEGER[18446744073709551615] => 1:1 DECLARE x@1:9 INTEGER[18446744073709551615]
DECLARE x BIT SHARING y => 1:1 DECLARE x@1:9 BIT[1] SHARING y@1:23
DECLARE x BIT[2] SHARING y OFFSET 1 OCTET 00 REAL => 1:1 DECLARE x@1:9 BIT[2] SHARING y@1:26 1 OCTET 00=0 REAL
DECLARE x BIT SHARING y OFFSET 18446744073709551615 BIT => 1:1 DECLARE x@1:9 BIT[1] SHARING y@1:23 18446744073709551615 BIT
DEFGATE G:⏎    1 => 1:1 DEFGATE G@1:9 {(1@2:5)@2:5}
DEFGATE G AS MATRIX:⏎\t1⏎ => 1:1 DEFGATE G@1:9 {(1@2:2)@2:2}
DEFGATE G:⏎ 1,0⏎ 0,i => 1:1 DEFGATE G@1:9 {(1@2:2)@2:2 (0@2:4)@2:4} {(0@3:2)@3:2 (i@3:4)@3:4}
DEFGATE G:;⏎ 1, 0; (0), 1; => 1:1 DEFGATE G@1:9 {(1@2:2)@2:2 (0@2:5)@2:5} {(0@2:9)@2:8 (1@2:13)@2:13}
DEFGATE G:⏎⏎# c⏎ 1 # c⏎ ⏎; # c⏎ 2⏎X 0 => 1:1 DEFGATE G@1:9 {(1@4:2)@4:2} {(2@7:2)@7:2} | 8:1 X@8:1 0@8:3
DEFGATE G(%a, %b):⏎ %b*%a => 1:1 DEFGATE G@1:9 %a@1:11 %b@1:15 {(%1@2:2 %0@2:5 *@2:2)@2:2}
DEFGATE G(%i) AS MATRIX:⏎ cis(%i) => 1:1 DEFGATE G@1:9 %i@1:11 {(%0@2:6 cis@2:2)@2:2}
DEFGATE G:⏎ 99999999999999999999 => 1:1 DEFGATE G@1:9 {(99999999999999999999@2:2)@2:2}
DEFGATE G AS PERMUTATION:⏎ 1, 00 => 1:1 DEFGATE G@1:9 PERMUTATION 1 00
DEFGATE G AS PERMUTATION:⏎# c⏎⏎ 99999999999999999999;⏎;X => 1:1 DEFGATE G@1:9 PERMUTATION 99999999999999999999 | 5:2 X@5:2
DEFCIRCUIT A:⏎    X 0 => 1:1 DEFCIRCUIT A@1:12 {2:5 X@2:5 0@2:7}
DEFCIRCUIT A q r:⏎ CNOT r q⏎ => 1:1 DEFCIRCUIT A@1:12 q@1:14 r@1:16 {2:2 CNOT@2:2 $r@2:7 $q@2:9}
DEFCIRCUIT A(%a, %b) q:⏎ RX(%b) q => 1:1 DEFCIRCUIT A@1:12 %a@1:14 %b@1:18 q@1:22 {2:2 RX@2:2 (%1@2:5)@2:5 $q@2:9}
DEFCIRCUIT A(%HALT):⏎ MOVE x -%HALT => 1:1 DEFCIRCUIT A@1:12 %HALT@1:14 {2:2 MOVE x[0]@2:7 (%0@2:10 minus@2:9)@2:9}
DEFCIRCUIT A q:⏎ q q 0q⏎ RX(q) q => 1:1 DEFCIRCUIT A@1:12 q@1:14 {2:2 q@2:2 $q@2:4 0@2:6 $q@2:7; 3:2 RX@3:2 (q[0]@3:5)@3:5 $q@3:8}
DEFCIRCUIT A q:⏎ MEASURE q q⏎ RESET q; RESET⏎ MEASURE q => 1:1 DEFCIRCUIT A@1:12 q@1:14 {2:2 MEASURE $q@2:10 q[0]@2:12; 3:2 RESET $q@3:8; 3:11 RESET; 4:2 MEASURE $q@4:10}
DEFCIRCUIT A:⏎ LABEL @l⏎\tJUMP @l⏎ PRAGMA a b => 1:1 DEFCIRCUIT A@1:12 {2:2 LABEL @l@2:8; 3:2 JUMP @l@3:7; 4:2 PRAGMA a@4:9 <b>}
DEFCIRCUIT A q: # c⏎⏎# c⏎  ⏎ X q; Y q # c⏎;⏎⏎ Z 1⏎X 0 => 1:1 DEFCIRCUIT A@1:12 q@1:14 {5:2 X@5:2 $q@5:4; 5:7 Y@5:7 $q@5:9; 8:2 Z@8:2 1@8:4} | 9:1 X@9:1 0@9:3
DEFCIRCUIT A q:⏎ X q⏎DEFCIRCUIT B:⏎ A 1⏎DEFGATE G:⏎ 1 => 1:1 DEFCIRCUIT A@1:12 q@1:14 {2:2 X@2:2 $q@2:4} | 3:1 DEFCIRCUIT B@3:12 {4:2 A@4:2 1@4:4} | 5:1 DEFGATE G@5:9 {(1@6:2)@6:2}
X 0; DEFCIRCUIT A:⏎ X 0; X 1⏎ => 1:1 X@1:1 0@1:3 | 1:6 DEFCIRCUIT A@1:17 {2:2 X@2:2 0@2:4; 2:7 X@2:7 1@2:9}
";
    assert_eq!(rt; misses(rt.alloc(), table)?.as_str(), "");
    Ok(())
}

// Blank lines, comments, semicolons and line ends between statements.
#[test]
fn lines_have_these_trees(rt: HostRuntime) -> Result<(), Fail> {
    let table = "
 => nothing
⏎⏎ => nothing
\r⏎ \t\r⏎ => nothing
# c => nothing
⏎ ; ⏎\t# nothing⏎ => nothing
 # $ é \" ; X⏎\t;; # c\r⏎; => nothing
X 0; H 0 # two⏎ => 1:1 X@1:1 0@1:3 | 1:6 H@1:6 0@1:8
;; X 0;;H 0; => 1:4 X@1:4 0@1:6 | 1:9 H@1:9 0@1:11
X;X;X => 1:1 X@1:1 | 1:3 X@1:3 | 1:5 X@1:5
X 0\r⏎X 1⏎X 2\r⏎ => 1:1 X@1:1 0@1:3 | 2:1 X@2:1 1@2:3 | 3:1 X@3:1 2@3:3
X 0;\r⏎\r⏎#\r⏎; \tX 1#;X 2\r⏎ => 1:1 X@1:1 0@1:3 | 4:4 X@4:4 1@4:6
X 0 # c\rX 1⏎# \r\r⏎X 2 => 1:1 X@1:1 0@1:3 | 3:1 X@3:1 2@3:3
PRAGMA a \"\r\"#\" => 1:1 PRAGMA a@1:8 <\"\r\">
PRAGMA a \"é#\"\"\" => 1:1 PRAGMA a@1:8 <\"é#\"> <\"\">
";
    assert_eq!(rt; misses(rt.alloc(), table)?.as_str(), "");
    Ok(())
}

#[test]
fn gates_break_here(rt: HostRuntime) -> Result<(), Fail> {
    let table = "
X -1 => 6 1:3
X q => 6 1:3
X 1.5 => 6 1:3
X 2e3 => 6 1:3
X 1i => 6 1:3
X 1i2 => 6 1:4
X 0x => 6 1:4
X [0] => 6 1:3
X 0,1 => 6 1:4
X 0: => 6 1:4
X 0-1 => 6 1:4
X(2 i) => 6 1:5
X(2ii) => 6 1:4
X(1_0) => 6 1:4
X(a-) => 6 1:5
X %a => 6 1:3
X \"a\" => 6 1:3
X 65536 => 4 1:3
X 0 0065536 1 => 4 1:5
X 65536 q => 4 1:3
X q 65536 => 6 1:3
X 18446744073709551616 => 4 1:3
X(1) 65536 => 4 1:6
X( => 6 1:3
X() => 6 1:3
X(1 => 6 1:4
X(1 0 => 6 1:5
X(1, => 6 1:5
X(1,) => 6 1:5
X(,1) => 6 1:3
X(1,,2) => 6 1:5
X(1;2) => 6 1:4
X(1)) => 6 1:5
X(1)(2) => 6 1:5
X 0 (1) => 6 1:5
X(1+) 0 => 6 1:5
X(1+ => 6 1:5
X(((1) 0 => 6 1:8
X(HALT) => 6 1:3
X(%a) => 6 1:3
X(sqrt 2) => 6 1:8
X(ro[) => 6 1:6
X(ro[1.0]) => 6 1:6
X(ro[18446744073709551616]) => 4 1:6
X(ro[18446744073709551616 => 4 1:6
CONTROLLED => 6 1:11
CONTROLLED 0 => 6 1:12
DAGGER MEASURE 0 => 6 1:8
DAGGER(1) X 0 => 6 1:7
X DAGGER 0 => 6 1:3
FORKED FORKED FORKED FORKED => 6 1:28
FORKED FORKED FORKED FORKED FORKED => 8 1 FORKED
⏎FORKED FORKED DAGGER FORKED CONTROLLED FORKED FORKED X 0 => 8 2 FORKED
FORKED FORKED 1 FORKED FORKED FORKED => 6 1:15
DEFCIRCUIT A:⏎ FORKED FORKED FORKED FORKED FORKED X => 8 2 FORKED
";
    assert_eq!(rt; misses(rt.alloc(), table)?.as_str(), "");
    Ok(())
}

#[test]
fn instructions_break_here(rt: HostRuntime) -> Result<(), Fail> {
    let table = "
MEASURE => 6 1:8
MEASURE ro => 6 1:9
MEASURE 0 1 => 6 1:11
MEASURE 0 ro[ => 6 1:14
MEASURE 0 ro[1 => 6 1:15
MEASURE 0 ro[] => 6 1:14
MEASURE 0 ro[-1] => 6 1:14
MEASURE 0 ro[1] 2 => 6 1:17
MEASURE 0 ro ro => 6 1:14
MEASURE 65536 1 => 4 1:9
MEASURE 0 ro[18446744073709551616] => 4 1:14
RESET 0 1 => 6 1:9
RESET q => 6 1:7
RESET 65536 => 4 1:7
WAIT 0 => 6 1:6
NOP NOP => 6 1:5
HALT;HALT 0 => 6 1:11
PRAGMA => 6 1:7
PRAGMA 5 => 6 1:8
PRAGMA \"a\" => 6 1:8
LABEL => 6 1:6
LABEL l => 6 1:7
LABEL @l- => 6 1:9
LABEL @l 0 => 6 1:10
JUMP l => 6 1:6
JUMP @l ro => 6 1:9
JUMP %l => 6 1:6
jump @l => 6 1:6
JUMP-WHEN @l => 6 1:13
JUMP-WHEN ro @l => 6 1:11
JUMP-UNLESS @l 0 => 6 1:16
JUMP-UNLESS @l ro 0 => 6 1:19
JUMP -WHEN @l ro => 6 1:6
NOT => 6 1:4
NOT 1 => 6 1:5
NEG a b => 6 1:7
EXCHANGE a => 6 1:11
EXCHANGE a 1 => 6 1:12
CONVERT a b c => 6 1:13
CONVERT a[1 b => 6 1:13
MOVE a => 6 1:7
MOVE a-5 => 6 1:9
MOVE 1 a => 6 1:6
MOVE a 5 6 => 6 1:10
MOVE a b+1 => 6 1:9
MOVE a 1+b => 6 1:10
MOVE a (b) => 6 1:9
MOVE a -b => 6 1:9
MOVE a %a => 6 1:8
MOVE a - => 6 1:9
MOVE a \"b\" => 6 1:8
MOVE x 18446744073709551616 => 4 1:8
MOVE x -0018446744073709551616 => 4 1:8
MOVE x + 18446744073709551616; HALT => 4 1:8
MOVE x 18446744073709551616 ) => 4 1:8
MOVE x 18446744073709551616 + ) => 6 1:31
MOVE x 18446744073709551616 + => 6 1:30
MOVE x (18446744073709551616 => 6 1:29
MOVE x[18446744073709551616] 1 => 4 1:8
ADD a 5, => 6 1:8
XOR a[0][1] 5 => 6 1:9
LOAD a x => 6 1:9
LOAD a x[0] n => 6 1:9
LOAD a x 1 => 6 1:10
LOAD a 1 n => 6 1:8
LOAD a x n n => 6 1:12
STORE x[0] n 1 => 6 1:8
STORE x 0 1 => 6 1:9
STORE x n => 6 1:10
STORE x n[1] -18446744073709551616 => 4 1:14
EQ r a => 6 1:7
EQ r 1 a => 6 1:6
GT r a 18446744073709551616 1 => 4 1:8
GE r a b c => 6 1:10
LT r a HALT => 6 1:8
LE r, a b => 6 1:5
";
    assert_eq!(rt; misses(rt.alloc(), table)?.as_str(), "");
    Ok(())
}

#[test]
fn definitions_break_here(rt: HostRuntime) -> Result<(), Fail> {
    let table = "
DECLARE => 6 1:8
DECLARE 5 BIT => 6 1:9
DECLARE ro 5 => 6 1:12
DECLARE ro BITS => 6 1:12
DECLARE ro bit => 6 1:12
DECLARE ro[2] BIT => 6 1:11
DECLARE ro BIT 2 => 6 1:16
DECLARE ro BIT[ => 6 1:16
DECLARE ro BIT[] => 6 1:16
DECLARE ro BIT[0] => 6 1:16
DECLARE ro BIT[00 => 6 1:16
DECLARE ro BIT[-1] => 6 1:16
DECLARE ro BIT[1.0] => 6 1:16
DECLARE ro BIT[2 => 6 1:17
DECLARE ro BIT[2][3] => 6 1:18
DECLARE ro BIT[18446744073709551616] => 4 1:16
DECLARE ro BIT[18446744073709551616 => 4 1:16
DECLARE x BIT SHARING => 6 1:22
DECLARE x BIT SHARING 1 => 6 1:23
DECLARE x BIT SHARING y[0] => 6 1:24
DECLARE x BIT SHARING y SHARING z => 6 1:25
DECLARE x BIT OFFSET 1 BIT => 6 1:15
DECLARE x BIT SHARING y OFFSET => 6 1:31
DECLARE x BIT SHARING y OFFSET BIT => 6 1:32
DECLARE x BIT SHARING y OFFSET -1 BIT => 6 1:32
DECLARE x BIT SHARING y OFFSET 1 => 6 1:33
DECLARE x BIT SHARING y OFFSET 1, BIT => 6 1:33
DECLARE x BIT SHARING y OFFSET 1 BIT 2 => 6 1:39
DECLARE x BIT SHARING y OFFSET 1 BIT BIT => 6 1:38
DECLARE x BIT SHARING y OFFSET 18446744073709551616 => 4 1:32
DEFGATE => 6 1:8
DEFGATE G => 6 1:10
DEFGATE G; => 6 1:10
DEFGATE G⏎ 1 => 6 1:10
DEFGATE 1: => 6 1:9
DEFGATE G q: => 6 1:11
DEFGATE G: 1 => 6 1:12
DEFGATE G(): => 6 1:11
DEFGATE G(a): => 6 1:11
DEFGATE G(%a: => 6 1:13
DEFGATE G(%a %b): => 6 1:14
DEFGATE G(%a,): => 6 1:14
DEFGATE G MATRIX: => 6 1:11
DEFGATE G AS => 6 1:13
DEFGATE G AS: => 6 1:13
DEFGATE G AS H: => 6 1:14
DEFGATE G AS MATRIX => 6 1:20
DEFGATE G AS MATRIX AS MATRIX: => 6 1:21
DEFGATE G AS MATRIX(%a): => 6 1:20
DEFGATE G(%a) AS PERMUTATION: => 6 1:18
DEFGATE G AS PERMUTATION(%a): => 6 1:25
DEFCIRCUIT => 6 1:11
DEFCIRCUIT A => 6 1:13
DEFCIRCUIT A⏎ X 0 => 6 1:13
DEFCIRCUIT A q; => 6 1:15
DEFCIRCUIT 1: => 6 1:12
DEFCIRCUIT A 0: => 6 1:14
DEFCIRCUIT A-: => 6 1:13
DEFCIRCUIT A q, r: => 6 1:15
DEFCIRCUIT A(): => 6 1:14
DEFCIRCUIT A(a): => 6 1:14
DEFCIRCUIT A(%a,): => 6 1:17
DEFCIRCUIT A(%a q: => 6 1:17
DEFCIRCUIT A(%a)(%b): => 6 1:17
DEFCIRCUIT A q(%a): => 6 1:15
DEFCIRCUIT A: X 0 => 6 1:15
DEFCIRCUIT A:: => 6 1:14
DEFCIRCUIT A AS MATRIX: => 6 1:14
";
    assert_eq!(rt; misses(rt.alloc(), table)?.as_str(), "");
    Ok(())
}

#[test]
fn bodies_break_here(rt: HostRuntime) -> Result<(), Fail> {
    let table = "
 X 0 => 6 1:2
\tX 0 => 6 1:2
 ; X 0 => 6 1:4
 65536 => 6 1:2
 OR => 8 1 OR
 $ => 5 1:2
 \" => 5 1:2
⏎;⏎  DELAY 0 => 8 3 DELAY
X 0⏎ X 1 => 6 2:2
 DEFCIRCUIT A:⏎ X 0 => 6 1:2
DEFCIRCUIT A:⏎ X 0⏎X 1⏎ X 2 => 6 4:2
DEFCIRCUIT A: => 6 1:14
DEFCIRCUIT A:⏎ => 6 1:14
DEFCIRCUIT A:\r⏎\r⏎ => 6 1:14
DEFCIRCUIT A: # c⏎⏎# d⏎ => 6 1:18
DEFCIRCUIT A:; => 6 1:15
DEFCIRCUIT A:; # c => 6 1:19
DEFCIRCUIT A:⏎X 0 => 6 2:1
DEFCIRCUIT A:⏎⏎;; X 0 => 6 3:4
DEFCIRCUIT A:⏎DEFCIRCUIT B:⏎ X 0 => 6 2:1
DEFCIRCUIT A:⏎X 65536 $ => 6 2:1
DEFCIRCUIT A q:; X q => 6 1:18
DEFCIRCUIT A q:; X q⏎ X q => 6 1:18
DEFCIRCUIT A:⏎$ => 5 2:1
DEFCIRCUIT A:⏎⏎\" => 5 3:1
DEFCIRCUIT A:⏎ $ => 5 2:2
DEFCIRCUIT A:⏎OR => 8 2 OR
DEFCIRCUIT A:; OR => 8 1 OR
DEFCIRCUIT A q:⏎ X r => 6 2:4
DEFCIRCUIT A q:⏎ X Q => 6 2:4
DEFCIRCUIT A q:⏎ X q⏎X q => 6 3:3
DEFCIRCUIT A q:⏎ X q⏎DEFCIRCUIT B r:⏎ X q => 6 4:4
DEFCIRCUIT A q:⏎ MEASURE q 0 => 6 2:12
DEFCIRCUIT A q:⏎ RX(%q) q => 6 2:5
DEFCIRCUIT A(%q):⏎ X q => 6 2:4
DEFCIRCUIT A(%a):⏎ RX(%a)⏎RX(%a) => 6 3:4
DEFCIRCUIT A(%a):⏎ RX(%a+%b) => 6 2:8
DEFCIRCUIT A:⏎ X 0; Y 65536 => 4 2:9
DEFCIRCUIT A:⏎ X 0⏎  Y ) => 6 3:5
DEFCIRCUIT A:⏎ DECLARE x BIT => 6 2:2
DEFCIRCUIT A:⏎ DEFGATE G: => 6 2:2
DEFCIRCUIT A:⏎ X 0; DEFCIRCUIT B: => 6 2:7
DEFCIRCUIT A:⏎ INCLUDE \"f\" => 8 2 INCLUDE
DEFCIRCUIT A:⏎ MEASURE # c⏎X ) => 6 2:13
DEFGATE G: => 6 1:11
DEFGATE G:;; => 6 1:13
DEFGATE G:⏎X 0 => 6 2:1
DEFGATE G:; DEFGATE H:⏎ 1 => 6 1:13
DEFGATE G AS PERMUTATION: #⏎# => 6 1:28
DEFGATE G:⏎ ,1 => 6 2:2
DEFGATE G:⏎ 1, => 6 2:4
DEFGATE G:⏎ 1, ;1 => 6 2:5
DEFGATE G:⏎ 1 2 => 6 2:4
DEFGATE G:⏎ 1,,2 => 6 2:4
DEFGATE G:⏎ X 0 => 6 2:2
DEFGATE G:⏎ HALT => 6 2:2
DEFGATE G:⏎ OR => 6 2:2
DEFGATE G:⏎ 1⏎OR => 8 3 OR
DEFGATE G:⏎ 1+ro[0] => 6 2:4
DEFGATE G:⏎ %a => 6 2:2
DEFGATE G(%a-b):⏎ %a-b-1 => 6 2:2
DEFGATE G(%a):⏎ %a, %b => 6 2:6
DEFGATE G:⏎ 1⏎ DEFGATE H: => 6 3:2
DEFGATE G:⏎ 1⏎$ => 5 3:1
DEFGATE G AS PERMUTATION:⏎ 0, 1⏎ 1, 0 => 6 3:2
DEFGATE G AS PERMUTATION:⏎ 0, 1; 1, 0 => 6 2:8
DEFGATE G AS PERMUTATION:⏎ 0, 1⏎ OR => 6 3:2
DEFGATE G AS PERMUTATION:⏎ -1 => 6 2:2
DEFGATE G AS PERMUTATION:⏎ 1.0 => 6 2:2
DEFGATE G AS PERMUTATION:⏎ 0 1 => 6 2:4
DEFGATE G AS PERMUTATION:⏎ 0, => 6 2:4
DEFGATE G AS PERMUTATION:⏎ pi => 6 2:2
";
    assert_eq!(rt; misses(rt.alloc(), table)?.as_str(), "");
    Ok(())
}

// Where a statement that isn't whole ends, and which of several faults counts.
#[test]
fn the_first_fault_counts(rt: HostRuntime) -> Result<(), Fail> {
    let table = "
DECLARE ro => 6 1:11
DECLARE ro # c => 6 1:15
DECLARE ro   => 6 1:13
DECLARE ro⏎ => 6 1:11
DECLARE ro\t\r⏎X 0 => 6 1:12
DECLARE ro # c;\r⏎ => 6 1:16
DECLARE ro # c\r => 6 1:16
DECLARE ro # é => 6 1:16
DECLARE ro; => 6 1:11
DECLARE ro ; X 0 # c => 6 1:12
X 0; DECLARE ro # c => 6 1:20
⏎⏎;DECLARE ro⏎⏎X ) => 6 3:12
DECLARE ro $ => 5 1:12
DECLARE ro⏎$ => 6 1:11
X 65536 $ => 4 1:3
X $ 65536 => 5 1:3
X ) $ => 6 1:3
X 0 $ ) => 5 1:5
X 0⏎X )⏎X $ => 6 2:3
X 65536; OR => 4 1:3
OR; X 65536 => 8 1 OR
INCLUDE \"f\" => 8 1 INCLUDE
INCLUDE \"f => 8 1 INCLUDE
INCLUDES \"f => 5 1:10
MOVE x 18446744073709551616 $ => 4 1:8
MOVE x 18446744073709551616+$ => 5 1:29
DEFGATE G:$ => 5 1:11
DEFGATE G AS $ => 5 1:14
DEFGATE G AS SEQUENCE $ => 8 1 SEQUENCE
";
    assert_eq!(rt; misses(rt.alloc(), table)?.as_str(), "");
    Ok(())
}

#[test]
fn no_token_begins_here(rt: HostRuntime) -> Result<(), Fail> {
    let table = "
X \"a => 5 1:3
X \"a ; X 0 => 5 1:3
PRAGMA a \"b⏎c\" => 5 1:10
PRAGMA a \"b\r⏎c\" => 5 1:10
PRAGMA a \"b\" \" => 5 1:14
PRAGMA a $ => 5 1:10
X 1. => 5 1:4
X .5 => 5 1:3
X 1..2 => 5 1:4
X(1.5.2) => 5 1:6
X(1e5.2) => 5 1:6
X(1e5e5) => 6 1:6
X(1.e5) => 5 1:4
X(1E+) => 6 1:4
X(2e => 6 1:4
X % => 5 1:3
X % a => 5 1:3
RX(%1) => 5 1:4
JUMP @ => 5 1:6
JUMP @-l => 5 1:6
X 0 = 1 => 5 1:5
X {0} => 5 1:3
é 0 => 5 1:1
X é => 5 1:3
\u{feff}X 0 => 5 1:1
X 0\0 => 5 1:4
X\u{c}0 => 5 1:2
X\u{b}0 => 5 1:2
\r => 5 1:1
X 0\r => 5 1:4
X 0\rX 1 => 5 1:4
X 0\r\r⏎ => 5 1:4
X 0⏎\rX 1 => 5 2:1
X 0 # c⏎\r⏎ \rX => 5 3:2
";
    assert_eq!(rt; misses(rt.alloc(), table)?.as_str(), "");
    let alloc = rt.alloc();
    assert_eq!(rt; told(alloc, b"X \x80")?.as_str(), "5 1:3");
    assert_eq!(rt; told(alloc, b"\xff")?.as_str(), "5 1:1");
    assert_eq!(rt;
        told(alloc, b"X # \x80\xff\nY")?.as_str(),
        "1:1 X@1:1 | 2:1 Y@2:1"
    );
    assert_eq!(rt; told(alloc, b"PRAGMA a \"\xff\" 1.")?.as_str(), "5 1:15");
    Ok(())
}
