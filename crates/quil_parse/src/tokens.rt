//! The tokens of a line, and its end.

ghost use Rattle.std.specs.Prelude.{◌≡◌, ◌++◌, map, IfOk, OnOk};
ghost use Rattle.quil_lex.specs.Reading.{lexeme_of, span_of};
ghost use Rattle.quil_grammar.specs.Token.{token_in, line_tokens, span_tokens, span_end, bad_token};
ghost use Rattle.quil_parse.specs.Program.{is_empty, line_end};
ghost use Rattle.quil_parse.specs.Steps.{names_in};

use crate::context::Context;
use quil_grammar::{Sort, Token};
use quil_lex::{End, Segment, Token as Lexeme};
use quil_tree::Place;
use std::alloc::{AllocError, Global};

// Adds tokens of which none is the first of its line.
fn push_lexemes<'a>(
    tokens: &mut Vec<Token<'a>>,
    mut lexemes: &[Lexeme<'a>],
    context: &Context,
) -> Result<(), AllocError>
    ensures { OnOk result (tokens.new.items ≡ tokens.old.items ++ map (token_in (names_in context.now)) (map lexeme_of lexemes.entry.now)) }
{
    while let [lexeme, rest @ ..] = lexemes {
        tokens.push(context.token(lexeme, false))?;
        lexemes = rest;
    }
    Ok(())
}

// Adds the byte at which no token begins, if the line ends at one.
fn push_end<'a>(tokens: &mut Vec<Token<'a>>, line: u32, end: End) -> Result<(), AllocError>
    ensures { OnOk result (tokens.new.items ≡ tokens.old.items ++ bad_token line end) }
{
    if let End::BadToken(column) = end {
        let place = Place { line, column };
        tokens.push(Token::new(Sort::Bad, &[], place, 0))?;
    }
    Ok(())
}

/// The tokens of a line, where these names stand for parameters and qubits. No qubit begins a line.
pub(crate) fn line_tokens<'a>(
    alloc: Global,
    segment: &Segment<'a>,
    context: &Context,
) -> Result<Vec<Token<'a>>, AllocError>
    ensures { IfOk result (λ tokens. tokens.items ≡ span_tokens (names_in context.now) (span_of segment.now)) }
{
    let mut tokens = Vec::new(alloc);
    if let [first, others @ ..] = segment.tokens.as_slice() {
        tokens.push(context.token(first, true))?;
        push_lexemes(&mut tokens, others, context)?;
    }
    push_end(&mut tokens, segment.line, segment.end)?;
    Ok(tokens)
}

/// The line has no token, and no byte at which none begins.
pub(crate) fn is_empty(segment: &Segment<'_>) -> bool
    ensures { result ≡ is_empty (span_of segment.now) }
{
    match segment.end {
        End::Line | End::Semicolon(_) => segment.tokens.is_empty(),
        End::BadToken(_) => false,
    }
}

/// Where the line ends: at its `;`, or behind its last byte.
pub(crate) fn statement_end(segment: &Segment<'_>) -> Place
    ensures { result ≡ span_end (span_of segment.now) }
{
    let column = match segment.end {
        End::Semicolon(column) => column,
        End::Line | End::BadToken(_) => segment.line_end,
    };
    Place {
        line: segment.line,
        column,
    }
}

/// The place behind the last byte of the line.
pub(crate) fn line_end(segment: &Segment<'_>) -> Place
    ensures { result ≡ line_end (span_of segment.now) }
{
    Place {
        line: segment.line,
        column: segment.line_end,
    }
}
