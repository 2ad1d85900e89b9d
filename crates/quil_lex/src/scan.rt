//! The first token of some bytes.

ghost use Rattle.std.specs.Prelude.{◌≡◌, ◌≤◌, ◌<◌, ◌^◌, ◌⊎◌, ◌++◌, ℕ, true, false, List, length, MatchOption};
ghost use Rattle.quil_lex.specs.Token.{is_name_start, is_word, is_sign, is_exponent_mark, IsToken, IsFirstToken, NoToken, begins_more, is_closed};
ghost use Rattle.quil_lex.specs.Scan.{name_tail_len, name_len, string_tail_len, digits_len, fraction_len, signed_len, exponent_len, tail_len, begins_unit, number_of, number_from, behind, mark_of, token_of};

use crate::token::{Kind, Mark};

fn is_name_start(b: u8) -> bool
    ensures { result ≡ is_name_start b }
{
    b.is_ascii_alphabetic() || b == b'_'
}

fn is_word(b: u8) -> bool
    ensures { result ≡ is_word b }
{
    b.is_ascii_alphanumeric() || b == b'_'
}

// The length of the longest tail of a name at the front.
fn name_tail_len(bytes: &[u8]) -> usize
    ensures bound { result ≤ length bytes.now }
    ensures value { result ≡ name_tail_len bytes.now }
{
    let mut longest = 0;
    for (i, b) in bytes.iter().enumerate() {
        if is_word(*b) {
            longest = i + 1;
        } else if *b != b'-' {
            return longest;
        }
    }
    longest
}

// The length of the name at the front, or 0.
fn name_len(bytes: &[u8]) -> usize
    ensures bound { result ≤ length bytes.now }
    ensures value { result ≡ name_len bytes.now }
{
    match bytes.split_first() {
        Some((first, rest)) if is_name_start(*first) => 1 + name_tail_len(rest),
        _ => 0,
    }
}

// The length of what a string has behind its first byte, or 0 where it isn't closed.
fn string_tail_len(bytes: &[u8]) -> usize
    ensures bound { result ≤ length bytes.now }
    ensures value { result ≡ string_tail_len bytes.now }
{
    for (i, b) in bytes.iter().enumerate() {
        if *b == b'"' {
            return i + 1;
        }
    }
    0
}

fn digits_len(bytes: &[u8]) -> usize
    ensures bound { result ≤ length bytes.now }
    ensures value { result ≡ digits_len bytes.now }
{
    for (i, b) in bytes.iter().enumerate() {
        if !b.is_ascii_digit() {
            return i;
        }
    }
    bytes.len()
}

// The length of a point and digits at the front, or 0.
fn fraction_len(bytes: &[u8]) -> usize
    ensures bound { result ≤ length bytes.now }
    ensures value { result ≡ fraction_len bytes.now }
{
    match bytes.split_first() {
        Some((b'.', rest)) => match digits_len(rest) {
            0 => 0,
            n => 1 + n,
        },
        _ => 0,
    }
}

// The length of digits at the front, with a sign before them or without, or 0.
fn signed_len(bytes: &[u8]) -> usize
    ensures bound { result ≤ length bytes.now }
    ensures value { result ≡ signed_len bytes.now }
{
    match bytes.split_first() {
        Some((b'+' | b'-', rest)) => match digits_len(rest) {
            0 => 0,
            n => 1 + n,
        },
        _ => digits_len(bytes),
    }
}

// The length of the exponent at the front, or 0.
fn exponent_len(bytes: &[u8]) -> usize
    ensures bound { result ≤ length bytes.now }
    ensures value { result ≡ exponent_len bytes.now }
{
    match bytes.split_first() {
        Some((b'e' | b'E', rest)) => match signed_len(rest) {
            0 => 0,
            n => 1 + n,
        },
        _ => 0,
    }
}

// The length of what makes digits a decimal, or 0.
fn tail_len(bytes: &[u8]) -> usize
    ensures bound { result ≤ length bytes.now }
    ensures value { result ≡ tail_len bytes.now }
{
    let fraction = fraction_len(bytes);
    fraction + exponent_len(&bytes[fraction..])
}

// Whether an `i` comes next that makes a number imaginary.
fn begins_unit(bytes: &[u8]) -> bool
    ensures { result ≡ begins_unit bytes.now }
{
    match bytes {
        [b'i', b, ..] => !is_word(*b),
        [b'i'] => true,
        _ => false,
    }
}

// The number that begins with the digits at the front.
fn number(bytes: &[u8]) -> (Kind, usize)
    ensures { result ≡ number_from (digits_len bytes.now) bytes.now }
{
    let digits = digits_len(bytes);
    let rest = &bytes[digits..];
    let tail = tail_len(rest);
    let len = digits + tail;
    if begins_unit(&rest[tail..]) {
        (Kind::Imaginary, len + 1)
    } else if tail == 0 {
        (Kind::Whole, len)
    } else {
        (Kind::Decimal, len)
    }
}

// A token of a first byte and `len` more, if there are any more.
fn behind(kind: Kind, len: usize) -> Option<(Kind, usize)>
    requires { len < 2 ^ 63 }
    ensures { result ≡ behind kind len }
{
    if len == 0 {
        None
    } else {
        Some((kind, len + 1))
    }
}

fn mark_of(b: u8) -> Option<Mark>
    ensures { result ≡ mark_of b }
{
    Some(match b {
        b'(' => Mark::LeftParenthesis,
        b')' => Mark::RightParenthesis,
        b'[' => Mark::LeftBracket,
        b']' => Mark::RightBracket,
        b',' => Mark::Comma,
        b':' => Mark::Colon,
        b'+' => Mark::Plus,
        b'-' => Mark::Minus,
        b'*' => Mark::Star,
        b'/' => Mark::Slash,
        b'^' => Mark::Caret,
        _ => return None,
    })
}

// The kind and the length of the token at the front.
fn scan(bytes: &[u8]) -> Option<(Kind, usize)>
    ensures { result ≡ token_of bytes.now }
{
    let (first, rest) = bytes.split_first()?;
    match *first {
        b'0'..=b'9' => Some(number(bytes)),
        b if is_name_start(b) => Some((Kind::Name, name_len(bytes))),
        b'"' => behind(Kind::Str, string_tail_len(rest)),
        b'%' => behind(Kind::Parameter, name_len(rest)),
        b'@' => behind(Kind::Label, name_len(rest)),
        b => match mark_of(b) {
            Some(mark) => Some((Kind::Mark(mark), 1)),
            None => None,
        },
    }
}

/// The first token of the bytes of a line, and the bytes behind it. None where no token begins at the first byte.
pub(crate) fn first_token(bytes: &[u8]) -> Option<(Kind, &[u8], &[u8])>
    ensures { MatchOption result (NoToken bytes.now) (λ t. IsFirstToken t.0 t.1.now t.2.now bytes.now) }
{
    let (kind, len) = scan(bytes)?;
    let (text, rest) = bytes.split_at(len);
    Some((kind, text, rest))
}

/// A token is the first token of its bytes and of what is put behind them, where that begins with no byte that goes on a name
/// or a number. So tokens that are written with such bytes between them are read again.
pub fn tokens_stand_apart()
    ensures { (k : Kind) (t r : List ℕ) → IsToken k t → (is_closed k ≡ true) ⊎ (begins_more r ≡ false) → IsFirstToken k t r (t ++ r) }
{}
