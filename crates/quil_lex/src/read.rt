//! The segments of a text, each read from a place on.

ghost use Rattle.std.specs.Prelude.{◌≡◌, ℕ, ◌+◌, ◌-◌, ◌<◌, ◌≤◌, ◌^◌, List, length, map, take, drop, IfOk, IfErr};
ghost use Rattle.quil_lex.specs.Line.{end_len, first_line, other_lines, is_blank, begins_blank};
ghost use Rattle.quil_lex.specs.Reading.{Span, lexeme_of, spans_of, Reads, line_at, IsReading, Answers, IsRefusal, first_bad, lexemes_of, AreSlices};
ghost use Rattle.quil_lex.specs.Cursor.{place_of, Continues};

use crate::cursor::Cursor;
use crate::fault::LexFault;
use crate::scan::first_token;
use crate::segment::{End, Segment, Tokens};
use crate::token::Token;
use std::alloc::{AllocError, Global};

// How many bytes the line end at the front takes, or 0.
fn end_len(bytes: &[u8]) -> usize
    ensures { result ≡ end_len bytes.now }
{
    match bytes {
        [b'\n', ..] => 1,
        [b'\r', b'\n', ..] => 2,
        _ => 0,
    }
}

// How many bytes stand before the first line end.
fn line_len(bytes: &[u8]) -> usize
    ensures bound { result ≤ length bytes.now }
    ensures line { take result bytes.now ≡ first_line bytes.now }
    ensures others { drop (end_len (drop result bytes.now)) (drop result bytes.now) ≡ other_lines bytes.now }
{
    let mut len = 0;
    while len < bytes.len() && end_len(&bytes[len..]) == 0 {
        len += 1;
    }
    len
}

// The first byte of a line with this number, with which the text begins.
fn line_at(line: u32, text: &[u8]) -> Cursor<'_>
    requires line { line + length text.now < 2 ^ 32 + 1 }
    requires text { length text.now < 2 ^ 32 - 1 }
    ensures { place_of result ≡ line_at line text.now }
{
    let len = line_len(text);
    let (bytes, end) = text.split_at(len);
    let after = &end[end_len(end)..];
    Cursor {
        line,
        bytes,
        column: 1,
        rest: bytes,
        after,
    }
}

fn is_blank(b: u8) -> bool
    ensures { result ≡ is_blank b }
{
    b == b' ' || b == b'\t'
}

fn begins_blank(bytes: &[u8]) -> bool
    ensures { result ≡ begins_blank bytes.now }
{
    match bytes.first() {
        Some(b) => is_blank(*b),
        None => false,
    }
}

// Reads the tokens up to an end of a statement. Behind that end stand the bytes that are given last.
fn read<'a>(
    alloc: Global,
    line: u32,
    start: u32,
    bytes: &'a [u8],
) -> Result<(Vec<Token<'a>>, End, &'a [u8]), AllocError>
    requires { start + length bytes.now < 2 ^ 32 }
    ensures { IfOk result (λ found. Reads line start bytes.now (map lexeme_of found.0.items) found.1 found.2.now) }
{
    let mut tokens = Vec::new(alloc);
    let mut column = start;
    let mut rest = bytes;
    while let Some((first, behind)) = rest.split_first() {
        if is_blank(*first) {
            column += 1;
            rest = behind;
        } else if *first == b'#' {
            return Ok((tokens, End::Line, behind));
        } else if *first == b';' {
            return Ok((tokens, End::Semicolon(column), behind));
        } else if let Some((kind, text, after)) = first_token(rest) {
            tokens.push(Token {
                kind,
                text,
                line,
                column,
            })?;
            column += text.len() as u32;
            rest = after;
        } else {
            return Ok((tokens, End::BadToken(column), behind));
        }
    }
    Ok((tokens, End::Line, rest))
}

// Reads the segment at a place, and answers the place behind it, if the text goes on there.
fn segment<'a>(
    alloc: Global,
    cursor: Cursor<'a>,
) -> Result<(Segment<'a>, Option<Cursor<'a>>), AllocError>
    ensures { IfOk result (λ found. Continues cursor.entry found.0 found.1) }
{
    let Cursor {
        line,
        bytes,
        column,
        rest,
        after,
    } = cursor;
    let (tokens, end, rest) = read(alloc, line, column, rest)?;
    let indented = begins_blank(bytes);
    let line_end = bytes.len() as u32 + 1;
    let segment = Segment {
        line,
        indented,
        tokens,
        end,
        line_end,
    };
    match end {
        End::Semicolon(column) => {
            let next = Cursor {
                line,
                bytes,
                column: column + 1,
                rest,
                after,
            };
            Ok((segment, Some(next)))
        }
        End::Line if !after.is_empty() => Ok((segment, Some(line_at(line + 1, after)))),
        End::Line => Ok((segment, None)),
        End::BadToken(_) => Ok((segment, None)),
    }
}

/// The segments of a text, the last of them with the tokens before the first byte at which no token begins, if there is one.
pub fn tokens_to_bad_byte(alloc: Global, text: &[u8]) -> Result<Tokens<'_>, AllocError>
    requires { length text.now < 2 ^ 32 - 1 }
    // What is given is a reading of the text, and no other is.
    ensures found { IfOk result (λ t. IsReading text.now (spans_of t)) }
    ensures only { (spans : List Span) → IsReading text.now spans → IfOk result (λ t. spans_of t ≡ spans) }
    // The tokens stand in the text, in order.
    ensures slices { IfOk result (λ t. AreSlices text.now (lexemes_of (spans_of t))) }
{
    let mut segments = Vec::new(alloc);
    let mut cursor = line_at(1, text);
    loop {
        let (segment, next) = segment(alloc, cursor)?;
        segments.push(segment)?;
        match next {
            Some(place) => cursor = place,
            None => return Ok(Tokens { segments }),
        }
    }
}

/// The segments of a text, whose tokens stand in the order of the text, each with the slice of its source and its place.
/// A text with a byte at which no token begins is refused at the first such byte.
pub fn tokens(alloc: Global, text: &[u8]) -> Result<Tokens<'_>, LexFault>
    requires { length text.now < 2 ^ 32 - 1 }
    // What is given is a reading of the text without a bad byte, and a refusal names the bad byte of a reading.
    ensures found { IfOk result (λ t. IsReading text.now (spans_of t)) }
    ensures whole { IfOk result (λ t. first_bad (spans_of t) ≡ None) }
    ensures refused { IfErr result (IsRefusal text.now) }
    // However the text is read, this is what is answered.
    ensures exact { (spans : List Span) → IsReading text.now spans → Answers result spans }
    // The tokens stand in the text, in order.
    ensures slices { IfOk result (λ t. AreSlices text.now (lexemes_of (spans_of t))) }
{
    let tokens = tokens_to_bad_byte(alloc, text)?;
    match tokens.bad_byte() {
        Some((line, column)) => Err(LexFault::BadToken { line, column }),
        None => Ok(tokens),
    }
}

/// Each text is read, to its end or to its first bad byte.
#[tactic(auto, using(crate::proofs::Total::each_text))]
pub fn each_text_is_read()
    ensures { (text : List ℕ) → ((spans : List Span) × IsReading text spans) }
{}
