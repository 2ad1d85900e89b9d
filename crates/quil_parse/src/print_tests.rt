use crate::tree_text::printed_misses;
use std::test::*;

// What the trees of these texts are printed as.
#[test]
fn programs_are_printed_so(rt: HostRuntime) -> Result<(), Fail> {
    let table = "
RX(pi) 0 => RX(pi) 0⏎
RX(i) 0 => RX(i) 0⏎
RX(007) 0 => RX(007) 0⏎
RX(1.50e-3) 0 => RX(1.50e-3) 0⏎
RX(2.5i) 0 => RX(2.5i) 0⏎
RX(ro[3]) 0 => RX(ro[3]) 0⏎
RX(exp(cis(pi))) 0 => RX(exp(cis(pi))) 0⏎
WAIT => WAIT⏎
NOP => NOP⏎
HALT => HALT⏎
LABEL @end => LABEL @end⏎
JUMP @end => JUMP @end⏎
JUMP-WHEN @end ro[1] => JUMP-WHEN @end ro[1]⏎
JUMP-UNLESS @end ro[1] => JUMP-UNLESS @end ro[1]⏎
NOT ro[1] => NOT ro[1]⏎
NEG ro[1] => NEG ro[1]⏎
MOVE ro[1] 5 => MOVE ro[1] 5⏎
MOVE x[0] (5) => MOVE x[0] (5)⏎
MOVE x[0] (+5) => MOVE x[0] (+5)⏎
MOVE x[0] 1.50 => MOVE x[0] 1.50⏎
ADD ro[1] +5 => ADD ro[1] +5⏎
SUB ro[1] -5 => SUB ro[1] -5⏎
MUL ro[1] 007 => MUL ro[1] 007⏎
DIV ro[1] (5) => DIV ro[1] (5)⏎
DIV ro[1] 5.0 => DIV ro[1] 5.0⏎
DIV ro[1] 1e3 => DIV ro[1] 1e3⏎
DIV ro[1] 2.5i => DIV ro[1] 2.5i⏎
DIV ro[1] pi => DIV ro[1] pi⏎
DIV ro[1] (-5) => DIV ro[1] (-5)⏎
DIV ro[1] sqrt(5) => DIV ro[1] sqrt(5)⏎
AND ro[1] 5 => AND ro[1] 5⏎
IOR ro[1] 5 => IOR ro[1] 5⏎
XOR ro[1] 5 => XOR ro[1] 5⏎
STORE table ro[1] 5 => STORE table ro[1] 5⏎
EXCHANGE ro[1] ro[2] => EXCHANGE ro[1] ro[2]⏎
CONVERT ro[1] ro[2] => CONVERT ro[1] ro[2]⏎
LOAD ro[1] table ro[2] => LOAD ro[1] table ro[2]⏎
EQ ro[1] ro[2] ro[3] => EQ ro[1] ro[2] ro[3]⏎
GT ro[1] ro[2] ro[3] => GT ro[1] ro[2] ro[3]⏎
GE ro[1] ro[2] ro[3] => GE ro[1] ro[2] ro[3]⏎
LT ro[1] ro[2] ro[3] => LT ro[1] ro[2] ro[3]⏎
LE ro[1] ro[2] ro[3] => LE ro[1] ro[2] ro[3]⏎
MEASURE 12 ro[3] => MEASURE 12 ro[3]⏎
MEASURE 12 => MEASURE 12⏎
RESET 12 => RESET 12⏎
RESET => RESET⏎
PRAGMA fast => PRAGMA fast⏎
PRAGMA fast 0 1 => PRAGMA fast 0 1⏎
PRAGMA fast \"a\" b => PRAGMA fast \"a\" b⏎
PRAGMA INITIAL_REWIRING \"PARTIAL\" => PRAGMA INITIAL_REWIRING \"PARTIAL\"⏎
PRAGMA fast a + b => PRAGMA fast a + b⏎
DAGGER CONTROLLED X 0 1 => DAGGER CONTROLLED X 0 1⏎
DECLARE ro BIT[1] => DECLARE ro BIT[1]⏎
DECLARE ro OCTET[1] => DECLARE ro OCTET[1]⏎
DECLARE ro INTEGER[1] => DECLARE ro INTEGER[1]⏎
DECLARE ro REAL[1] => DECLARE ro REAL[1]⏎
DECLARE ro BIT[1] SHARING base => DECLARE ro BIT[1] SHARING base⏎
DECLARE ro REAL[1] SHARING base OFFSET 2 INTEGER 3 BIT => DECLARE ro REAL[1] SHARING base OFFSET 2 INTEGER 3 BIT⏎
RX(-pi) 0 => RX((-pi)) 0⏎
RX(+5) 0 => RX((+5)) 0⏎
RX(--pi) 0 => RX((-(-pi))) 0⏎
RX(-pi/2) 0 => RX((-pi) / 2) 0⏎
RX(-(pi/2)) 0 => RX((-(pi / 2))) 0⏎
RX(sqrt(1+2)) 0 => RX(sqrt(1 + 2)) 0⏎
RX(sqrt(-1)) 0 => RX(sqrt((-1))) 0⏎
RX(-(1+2)) 0 => RX((-(1 + 2))) 0⏎
RX(-sqrt(1)) 0 => RX((-sqrt(1))) 0⏎
RX(2^-1) 0 => RX(2 ^ (-1)) 0⏎
RX((-2)^1) 0 => RX((-2) ^ 1) 0⏎
RX(1-(2-3)) 0 => RX(1 - (2 - 3)) 0⏎
RX((2^3)^4) 0 => RX((2 ^ 3) ^ 4) 0⏎
RX(1-2-3,2^3^4) 0 => RX((1 - 2) - 3, 2 ^ (3 ^ 4)) 0⏎
RX((1+2)*(3/4)) 0 => RX((1 + 2) * (3 / 4)) 0⏎
RX(sin(1)+cos(2)) 0 => RX(sin(1) + cos(2)) 0⏎
DAGGER CONTROLLED FORKED RX(pi/2,3) 0 1 => DAGGER CONTROLLED FORKED RX(pi / 2, 3) 0 1⏎
 => 
⏎ # nothing⏎;;⏎ => 
X  0 # flip => X 0⏎
X 0; H 0 # two⏎ => X 0⏎H 0⏎
X 007\r⏎\r⏎H\t1 => X 007⏎H 1⏎
MEASURE 0 ro => MEASURE 0 ro[0]⏎
MOVE x ((5)) => MOVE x[0] (5)⏎
MOVE x + 5 => MOVE x[0] +5⏎
DIV ro[1] 1+2 => DIV ro[1] 1 + 2⏎
PRAGMA a(b ,[ 1:-x ) => PRAGMA a(b, [1: - x)⏎
PRAGMA fast ( 0 , 1 ) => PRAGMA fast(0, 1)⏎
PRAGMA fast [ 2 ] : 3 => PRAGMA fast[2]: 3⏎
PRAGMA fast ( ( 1 ) 2 => PRAGMA fast((1) 2⏎
PRAGMA fast 1 , ( 2 ) => PRAGMA fast 1, (2)⏎
PRAGMA fast b , , c : ] => PRAGMA fast b, , c:]⏎
DECLARE x BIT => DECLARE x BIT[1]⏎
DECLARE x INTEGER [ 02 ] SHARING y OFFSET 1 BIT 2 REAL => DECLARE x INTEGER[02] SHARING y OFFSET 1 BIT 2 REAL⏎
DEFGATE G(%b, %a) AS MATRIX:⏎ %a,1⏎⏎\t0 , %b => DEFGATE G(%b, %a):⏎    %a, 1⏎    0, %b⏎
DEFGATE G(%a, %a, %b):⏎ %a/2,%b⏎ -1,2.5i => DEFGATE G(%a, %a, %b):⏎    %a / 2, %b⏎    (-1), 2.5i⏎
DEFGATE P AS PERMUTATION:⏎ 1,0 => DEFGATE P AS PERMUTATION:⏎    1, 0⏎
DEFCIRCUIT A(%t) q  r:⏎ RX(%t) q; CNOT q r⏎A(pi) 0 1 => DEFCIRCUIT A(%t) q r:⏎    RX(%t) q⏎    CNOT q r⏎A(pi) 0 1⏎
DEFCIRCUIT C(%a, %b) q r:⏎ RZ(-%b) q⏎ MEASURE r ro => DEFCIRCUIT C(%a, %b) q r:⏎    RZ((-%b)) q⏎    MEASURE r ro[0]⏎
";
    assert_eq!(rt; printed_misses(rt.alloc(), table)?.as_str(), "");
    Ok(())
}
