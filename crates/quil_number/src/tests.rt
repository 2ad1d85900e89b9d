//! Questions with their answers by hand or by Python's fractions, and literals of a million digits.

use crate::{Fraction, TooWide, decimal, fraction_root, gcd, has_binary_end, lowest, root};
use std::alloc::Global;
use std::test::*;

type Said = Result<String, Fail>;

fn shown(alloc: Global, found: Option<Fraction>) -> Said {
    let text = match found {
        Some(Fraction { p, q }) => format!(in alloc; "{p}/{q}"),
        None => format!(in alloc; "none"),
    };
    Ok(text?)
}

fn shown_value(alloc: Global, text: &str) -> Said {
    let text = match decimal(text.as_bytes()) {
        Ok(Fraction { p, q }) => format!(in alloc; "{p}/{q}"),
        Err(TooWide::Numerator(q)) => format!(in alloc; "wide/{q}"),
        Err(TooWide::Denominator) => format!(in alloc; "fine"),
    };
    Ok(text?)
}

fn shown_divisor(alloc: Global, numbers: &str) -> Said {
    let (a, b) = numbers.split_once(" ").unwrap_or((numbers, "0"));
    let found = gcd(a.parse().unwrap_or(0), b.parse().unwrap_or(0));
    Ok(format!(in alloc; "{found}")?)
}

fn shown_root(alloc: Global, number: &str) -> Said {
    let text = match root(number.parse().unwrap_or(0)) {
        Some(found) => format!(in alloc; "{found}"),
        None => format!(in alloc; "none"),
    };
    Ok(text?)
}

fn shown_end(alloc: Global, text: &str) -> Said {
    let found = has_binary_end(text.as_bytes());
    Ok(format!(in alloc; "{found}")?)
}

// A fraction `p q`.
fn fraction(text: &str) -> Fraction {
    let (p, q) = text.split_once(" ").unwrap_or((text, "1"));
    Fraction {
        p: p.parse().unwrap_or(0),
        q: q.parse().unwrap_or(1),
    }
}

fn lowest_of(x: Fraction) -> Option<Fraction> {
    if x.p.unsigned_abs() < 1 << 127 && 0 < x.q && x.q < 1 << 127 {
        Some(lowest(x.p, x.q))
    } else {
        None
    }
}

fn answer(alloc: Global, question: &str) -> Said {
    let (word, rest) = question.split_once(" ").unwrap_or((question, ""));
    match word {
        "gcd" => shown_divisor(alloc, rest),
        "root" => shown_root(alloc, rest),
        "lowest" => shown(alloc, lowest_of(fraction(rest))),
        "fraction_root" => shown(alloc, fraction_root(fraction(rest))),
        "binary_end" => shown_end(alloc, rest),
        _ => shown_value(alloc, rest),
    }
}

#[test]
fn questions_have_their_answers(rt: HostRuntime) -> Result<(), Fail> {
    let alloc = rt.alloc();
    let table = "gcd 12 18 => 6
gcd 0 5 => 5
gcd 5 0 => 5
gcd 0 0 => 0
gcd 17 4 => 1
gcd 170141183460469231731687303715884105728 340282366920938463463374607431768211455 => 1
gcd 340282366920938463463374607431768211455 18446744073709551615 => 18446744073709551615
root 0 => 0
root 1 => 1
root 48 => none
root 49 => 7
root 50 => none
root 340282366920938463426481119284349108225 => 18446744073709551615
root 340282366920938463463374607431768211455 => none
lowest 6 4 => 3/2
lowest -6 4 => -3/2
lowest 0 7 => 0/1
lowest -7 7 => -1/1
lowest 170141183460469231731687303715884105727 170141183460469231731687303715884105727 => 1/1
fraction_root 4 9 => 2/3
fraction_root -4 9 => none
fraction_root 1 2 => none
fraction_root 2 1 => none
fraction_root 0 1 => 0/1
decimal 0 => 0/1
decimal 007 => 7/1
decimal 1.5 => 3/2
decimal 0.1 => 1/10
decimal 12.50 => 25/2
decimal 1e3 => 1000/1
decimal 1E3 => 1000/1
decimal 1e+3 => 1000/1
decimal 2.5e-1 => 1/4
decimal 125e-3 => 1/8
decimal 12.5e1 => 125/1
decimal 12.5e-3 => 1/80
decimal 3.0517578125e-05 => 1/32768
decimal 123456789.987654321 => 123456789987654321/1000000000
decimal 1.5i => 3/2
decimal 2e3i => 2000/1
decimal 4611686018427387904 => 4611686018427387904/1
decimal 4611686018427387905 => wide/1
decimal 4e18 => 4000000000000000000/1
decimal 5e18 => wide/1
decimal 100000000000000000000.1i => wide/10
decimal 100000000000000000000.75 => wide/4
decimal 1e19 => wide/1
decimal 36893488147419103232 => wide/1
decimal 2305843009213693951.5 => 4611686018427387903/2
decimal 2305843009213693952.5 => wide/2
decimal 1e-18 => 1/1000000000000000000
decimal 1e-19 => fine
decimal 16e-19 => 1/625000000000000000
decimal 1024e-20 => 1/97656250000000000
decimal 0.3333333333333333333 => fine
decimal 2.1684043449710088680149056017398834228515625E-19 => 1/4611686018427387904
decimal 1.08420217248550443400745280086994171142578125E-19 => fine
decimal 100000000000000000000e-20 => 1/1
decimal 0.00000000000000000001e20 => 1/1
decimal 1e99999999999 => wide/1
decimal 1e-99999999999 => fine
decimal 0e999999999999 => 0/1
decimal 0.0e-999999999999 => 0/1
decimal 1e36893488147419103231 => wide/1
decimal 1e36893488147419103233 => wide/1
decimal 1e-36893488147419103233 => fine
binary_end 108420217248550443400745280086994171142578125 => true
binary_end 21684043449710088680149056017398834228515625 => false
binary_end 325260651745651330202235840260982513427734375 => true
binary_end 216840434497100886801490560173988342285156250 => false
binary_end 108420217248550443400745280086994171142578126 => false
binary_end 0.108420217248550443400745280086994171142578125 => true
binary_end 1084202172485504434007452800869941711425.781250000e7i => true
binary_end 10842021724855044340074528008699417114257812500.000 => true
binary_end 0 => true
binary_end 00.00i => true
binary_end 5 => false
";
    for row in table.lines() {
        let (question, want) = row.split_once(" => ").unwrap_or(("", ""));
        let found = answer(alloc, question)?;
        assert_eq!(rt; found.as_str(), want, "at {row}");
    }
    Ok(())
}

// A text `FRONT+DIGIT+BACK`, with the digit a million times.
fn long(alloc: Global, form: &str) -> Said {
    let (front, rest) = form.split_once("+").unwrap_or(("", ""));
    let (digit, back) = rest.split_once("+").unwrap_or(("", ""));
    let mut text = String::new(alloc);
    text.push_str(front)?;
    for _ in 0..1_000_000 {
        text.push_str(digit)?;
    }
    text.push_str(back)?;
    Ok(text)
}

#[test]
fn a_million_digits(rt: HostRuntime) -> Result<(), Fail> {
    let alloc = rt.alloc();
    let table = "1+0+e-1000000 => 1/1
3+0+e-1000001 => 3/10
0.+0+1e1000001 => 1/1
1+3+ => wide/1
0.+3+ => fine
0.5+0+ => 1/2
1e+9+ => wide/1
1e-+9+ => fine
0e+9+ => 0/1
7e+0+2 => 700/1
";
    for row in table.lines() {
        let (form, want) = row.split_once(" => ").unwrap_or(("", ""));
        let text = long(alloc, form)?;
        let found = shown_value(alloc, &text)?;
        assert_eq!(rt; found.as_str(), want, "at {row}");
    }
    Ok(())
}

#[test]
fn ends_of_a_million_digits(rt: HostRuntime) -> Result<(), Fail> {
    let alloc = rt.alloc();
    let table = "108420217248550443400745280086994171142578125+0+.0 => true
108420217248550443400745280086994171142578.125+0+ => true
7+0+108420217248550443400745280086994171142578125 => true
7+3+108420217248550443400745280086994171142578125 => false
0.+5+ => false
0.+0+ => true
";
    for row in table.lines() {
        let (form, want) = row.split_once(" => ").unwrap_or(("", ""));
        let text = long(alloc, form)?;
        let found = shown_end(alloc, &text)?;
        assert_eq!(rt; found.as_str(), want, "at {row}");
    }
    Ok(())
}
