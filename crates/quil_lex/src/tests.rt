//! Texts with their tokens and places, as the lexical rules give them by hand, and texts of 1 MiB.

ghost use Rattle.std.specs.Prelude.{◌-◌, ◌<◌, ◌^◌, length};

use crate::{End, Kind, LexFault, Tokens, tokens, tokens_to_bad_byte};
use std::alloc::{AllocError, Global};
use std::process::Abort;
use std::test::Fail;

fn letter(kind: Kind) -> &'static str {
    match kind {
        Kind::Name => "n",
        Kind::Whole => "w",
        Kind::Decimal => "d",
        Kind::Imaginary => "i",
        Kind::Str => "s",
        Kind::Parameter => "p",
        Kind::Label => "l",
        Kind::Mark(_) => "m",
    }
}

// Segments stand between ` | `: the line, `>` where it is indented, each token as `KIND COLUMN:TEXT`, `;COLUMN` for a `;`
// or `!COLUMN` for a bad byte, and `/COLUMN` for the end of the line.
fn shown(alloc: Global, read: &Tokens) -> Result<String, AllocError> {
    let mut out = String::new(alloc);
    for segment in &read.segments {
        if !out.is_empty() {
            out.push_str(" | ")?;
        }
        let line = segment.line;
        let indented = if segment.indented { ">" } else { "" };
        out.push_str(format!(in alloc; "{line}{indented}")?.as_str())?;
        for token in &segment.tokens {
            let kind = letter(token.kind);
            let column = token.column;
            let text = String::from_utf8_lossy(alloc, token.text)?;
            out.push_str(format!(in alloc; " {kind}{column}:{text}")?.as_str())?;
        }
        let end = match segment.end {
            End::Line => String::new(alloc),
            End::Semicolon(column) => format!(in alloc; " ;{column}")?,
            End::BadToken(column) => format!(in alloc; " !{column}")?,
        };
        let line_end = segment.line_end;
        out.push_str(format!(in alloc; "{end} /{line_end}")?.as_str())?;
    }
    Ok(out)
}

// Both calls give the tokens of each text, or name its bad byte. A row of the table is a text, ` => ` and its tokens; in a text
// `⏎` stands for a line feed.
fn compare(rt: &impl Abort, alloc: Global, table: &str) -> Result<(), Fail> {
    for row in table.lines() {
        let Some((text, want)) = row.split_once(" => ") else {
            assert!(rt; row.is_empty(), "at {row:?}");
            continue;
        };
        let text = text.replace(alloc, "⏎", "\n")?;
        compare_row(rt, alloc, text.as_bytes(), want)?;
    }
    Ok(())
}

fn compare_row(rt: &impl Abort, alloc: Global, bytes: &[u8], want: &str) -> Result<(), Fail> {
    assert!(rt; bytes.len() < 1000);
    let read = tokens_to_bad_byte(alloc, bytes)?;
    assert_eq!(rt; shown(alloc, &read)?.as_str(), want);
    for segment in &read.segments {
        for token in &segment.tokens {
            assert_eq!(rt; token.line, segment.line, "at {want:?}");
        }
    }
    match tokens(alloc, bytes) {
        Ok(all) => assert_eq!(rt; shown(alloc, &all)?.as_str(), want),
        Err(LexFault::BadToken { line, column }) => {
            let line = format!(in alloc; "{line}")?;
            let column = format!(in alloc; " !{column} ")?;
            assert!(rt; want.contains(column.as_str()), "at {want:?}");
            assert!(rt; want.contains(line.as_str()), "at {want:?}");
        }
        Err(LexFault::OutOfMemory) => assert!(rt; false, "no memory at {want:?}"),
    }
    Ok(())
}

#[test]
fn names_are_the_longest_and_end_in_no_dash(rt: HostRuntime) -> Result<(), Fail> {
    let table = "
a => 1 n1:a /2
a-b => 1 n1:a-b /4
a- => 1 n1:a m2:- /3
a--b => 1 n1:a--b /5
a-- => 1 n1:a m2:- m3:- /4
a-b- => 1 n1:a-b m4:- /5
_ => 1 n1:_ /2
_a9_ => 1 n1:_a9_ /5
A1-2 => 1 n1:A1-2 /5
-a => 1 m1:- n2:a /3
9a => 1 w1:9 n2:a /3
a b => 1 n1:a n3:b /4
a-_ => 1 n1:a-_ /4
a- b => 1 n1:a m2:- n4:b /5
a-+b => 1 n1:a m2:- m3:+ n4:b /5
pi-x => 1 n1:pi-x /5
RAW-CAPTURE => 1 n1:RAW-CAPTURE /12
zZ => 1 n1:zZ /3
";
    compare(&rt, rt.alloc(), table)
}

#[test]
fn numbers_are_the_longest(rt: HostRuntime) -> Result<(), Fail> {
    let table = "
0 => 1 w1:0 /2
007 => 1 w1:007 /4
18446744073709551616 => 1 w1:18446744073709551616 /21
1.5 => 1 d1:1.5 /4
2e3 => 1 d1:2e3 /4
2E3 => 1 d1:2E3 /4
2e+3 => 1 d1:2e+3 /5
2e-3 => 1 d1:2e-3 /5
1.5e-3i => 1 i1:1.5e-3i /8
1. => 1 w1:1 !2 /3
.5 => 1 !1 /3
1.e => 1 w1:1 !2 /4
1..5 => 1 w1:1 !2 /5
1.5.2 => 1 d1:1.5 !4 /6
X 1. => 1 n1:X w3:1 !4 /5
2e => 1 w1:2 n2:e /3
2e+ => 1 w1:2 n2:e m3:+ /4
2e- => 1 w1:2 n2:e m3:- /4
2e-x => 1 w1:2 n2:e-x /5
2ee3 => 1 w1:2 n2:ee3 /5
1.5e => 1 d1:1.5 n4:e /5
1.5e+ => 1 d1:1.5 n4:e m5:+ /6
12e34e5 => 1 d1:12e34 n6:e5 /8
1i => 1 i1:1i /3
1.5i => 1 i1:1.5i /5
2e3i => 1 i1:2e3i /5
1ii => 1 w1:1 n2:ii /4
1.5ii => 1 d1:1.5 n4:ii /6
1i_ => 1 w1:1 n2:i_ /4
1i2 => 1 w1:1 n2:i2 /4
2e3i4 => 1 d1:2e3 n4:i4 /6
1i-a => 1 i1:1i m3:- n4:a /5
1i.5 => 1 i1:1i !3 /5
1 i => 1 w1:1 n3:i /4
1I => 1 w1:1 n2:I /3
-1 => 1 m1:- w2:1 /3
1+2i => 1 w1:1 m2:+ i3:2i /5
0x1F => 1 w1:0 n2:x1F /5
1e5i) => 1 i1:1e5i m5:) /6
";
    compare(&rt, rt.alloc(), table)
}

#[test]
fn marks_strings_parameters_and_labels(rt: HostRuntime) -> Result<(), Fail> {
    let table = "
()[],:+-*/^ => 1 m1:( m2:) m3:[ m4:] m5:, m6:: m7:+ m8:- m9:* m10:/ m11:^ /12
[0] => 1 m1:[ w2:0 m3:] /4
RX(pi/2) 0 => 1 n1:RX m3:( n4:pi m6:/ w7:2 m8:) w10:0 /11
\"\" => 1 s1:\"\" /3
\"a\" => 1 s1:\"a\" /4
\"a\"b\" => 1 s1:\"a\" n4:b !5 /6
\"a\"b => 1 s1:\"a\" n4:b /5
\"a\"\"b\" => 1 s1:\"a\" s4:\"b\" /7
\"a => 1 !1 /3
X \"a => 1 n1:X !3 /5
\"a;b\" => 1 s1:\"a;b\" /6
\"#\" # \" => 1 s1:\"#\" /8
\"é\" => 1 s1:\"é\" /5
\"a\\\" => 1 s1:\"a\\\" /5
\"a\tb\" => 1 s1:\"a\tb\" /6
\"a\rb\" => 1 s1:\"a\rb\" /6
\"a⏎b\" => 1 !1 /3
\"a\r⏎b\" => 1 !1 /3
%a => 1 p1:%a /3
%a-b => 1 p1:%a-b /5
%a- => 1 p1:%a m3:- /4
%a%b => 1 p1:%a p3:%b /5
%i => 1 p1:%i /3
% => 1 !1 /2
% a => 1 !1 /4
%1 => 1 !1 /3
%%a => 1 !1 /4
@a => 1 l1:@a /3
@end-1 => 1 l1:@end-1 /7
@ => 1 !1 /2
@-a => 1 !1 /4
LABEL @HALT => 1 n1:LABEL l7:@HALT /12
";
    compare(&rt, rt.alloc(), table)
}

#[test]
fn lines_segments_and_bad_bytes(rt: HostRuntime) -> Result<(), Fail> {
    let table = "
 => 1 /1
⏎ => 1 /1
⏎⏎ => 1 /1 | 2 /1
a⏎b => 1 n1:a /2 | 2 n1:b /2
a⏎b⏎ => 1 n1:a /2 | 2 n1:b /2
a\r⏎b\r⏎ => 1 n1:a /2 | 2 n1:b /2
a\rb => 1 n1:a !2 /4
a\r => 1 n1:a !2 /3
\r\r⏎ => 1 !1 /2
a⏎\rb => 1 n1:a /2 | 2 !1 /3
# c⏎b => 1 /4 | 2 n1:b /2
a # c => 1 n1:a /6
a#é⏎b => 1 n1:a /5 | 2 n1:b /2
#\r⏎b => 1 /2 | 2 n1:b /2
#a\rb⏎c => 1 /5 | 2 n1:c /2
#a\r\r⏎b => 1 /4 | 2 n1:b /2
  a => 1> n3:a /4
\t\tX 0 => 1> n3:X w5:0 /6
  => 1> /2
 # c => 1> /5
a⏎  ⏎\tb => 1 n1:a /2 | 2> /3 | 3> n2:b /3
a\tb => 1 n1:a n3:b /4
; => 1 ;1 /2 | 1 /2
;; => 1 ;1 /3 | 1 ;2 /3 | 1 /3
a;b => 1 n1:a ;2 /4 | 1 n3:b /4
a;⏎b => 1 n1:a ;2 /3 | 1 /3 | 2 n1:b /2
 a ; b => 1> n2:a ;4 /7 | 1> n6:b /7
a # b;c => 1 n1:a /8
X 0; Y 1⏎  Z 2 => 1 n1:X w3:0 ;4 /9 | 1 n6:Y w8:1 /9 | 2> n3:Z w5:2 /6
a ? b⏎c => 1 n1:a !3 /6
a; ? => 1 n1:a ;2 /5 | 1 !4 /5
a⏎ b ?⏎ c => 1 n1:a /2 | 2> n2:b !4 /5
a⏎\"b => 1 n1:a /2 | 2 !1 /3
a=b => 1 n1:a !2 /4
a.b => 1 n1:a !2 /4
{ => 1 !1 /2
'a' => 1 !1 /4
\u{0} => 1 !1 /2
\u{b} => 1 !1 /2
\u{c} => 1 !1 /2
\u{7f} => 1 !1 /2
é => 1 !1 /3
aé => 1 n1:a !2 /4
MEASURE 0 ro[1] # read\r⏎HALT => 1 n1:MEASURE w9:0 n11:ro m13:[ w14:1 m15:] /23 | 2 n1:HALT /5
DEFGATE G(%a):⏎    cos(%a), 0 => 1 n1:DEFGATE n9:G m10:( p11:%a m13:) m14:: /15 | 2> n5:cos m8:( p9:%a m11:) m12:, w14:0 /15
";
    compare(&rt, rt.alloc(), table)
}

// How many segments, and how many tokens in all, a text of 1 MiB has, where its first byte is `first` and each other is `other`.
fn counted(alloc: Global, first: u8, other: u8) -> Result<(usize, usize), Fail> {
    let mut text = vec![in alloc; other; 1_048_576]?;
    text[0] = first;
    let read = tokens_to_bad_byte(alloc, &text)?;
    let mut count: usize = 0;
    for segment in &read.segments {
        count = count.saturating_add(segment.tokens.len());
    }
    Ok((read.segments.len(), count))
}

#[test]
fn a_mebibyte_is_read_in_one_pass(rt: HostRuntime) -> Result<(), Fail> {
    for (first, other, segments, tokens) in [
        (b'a', b'a', 1, 1),
        (b'a', b'-', 1, 1_048_576),
        (b'(', b'(', 1, 1_048_576),
        (b'7', b'7', 1, 1),
        (b' ', b' ', 1, 0),
        (b'#', b'x', 1, 0),
        (b'"', b'x', 1, 0),
        (b'\n', b'\n', 1_048_576, 0),
        (b';', b';', 1_048_577, 0),
    ] {
        assert_eq!(rt;
            counted(rt.alloc(), first, other)?,
            (segments, tokens),
            "at {first}, {other}"
        );
    }
    Ok(())
}
