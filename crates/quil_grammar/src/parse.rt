//! The expression of a text.

ghost use Rattle.std.specs.Prelude.{◌≡◌, ◌≢◌, ℕ, ◌<◌, ◌≤◌, List, length, IfOk, IfErr, Ok, Err, Some};
ghost use Rattle.quil_shape.specs.Verdict.Verdict.{Refused, TooLarge};
ghost use Rattle.quil_tree.specs.declared.expr.Step.{Step};
ghost use Rattle.quil_grammar.specs.Answer.{IsExpressionOf, IsFault, Gives, fault_of};
ghost use Rattle.quil_grammar.specs.declared.parse.TheConstants.{MOST_BYTES};
ghost use Rattle.quil_grammar.specs.Told.{Tells};
ghost use Rattle.quil_grammar.specs.declared.fault.ReadFault as fault;

use crate::fault::ReadFault;
use crate::reader::expression;
use crate::sort::Sort;
use crate::stop::Stop;
use crate::token::Token;
use crate::tokens::{end_of, tokens_of};
use quil_lex::tokens_to_bad_byte;
use quil_tree::{Expr, Place};
use std::alloc::Global;

/// A text has at most so many bytes; one of more is refused as TextTooLong.
pub const MOST_BYTES: usize = 1_048_576;

/// The fault where no front goes on with the first of these tokens, or where none is left and they end at this place.
pub fn refusal(rest: &[Token<'_>], end: Place) -> ReadFault
    ensures { fault_of end (Refused rest.now) ≡ Some result }
{
    let Some(token) = rest.first() else {
        return ReadFault::Unexpected {
            line: end.line,
            column: end.column,
        };
    };
    let Place { line, column } = token.place();
    if token.sort().is(Sort::Bad) {
        ReadFault::BadToken { line, column }
    } else {
        ReadFault::Unexpected { line, column }
    }
}

// The fault where the first of these tokens is too large.
fn too_wide(rest: &[Token<'_>], end: Place) -> ReadFault
    requires { 0 < length rest.now }
    ensures { fault_of end (TooLarge rest.now) ≡ Some result }
{
    let Place { line, column } = rest[0].place();
    ReadFault::NumberTooWide { line, column }
}

// The expression of a text that isn't too long.
fn read(alloc: Global, text: &[u8]) -> Result<Expr, ReadFault>
    requires { length text.now ≤ MOST_BYTES }
    ensures { Tells text.now result }
{
    let lexemes = tokens_to_bad_byte(alloc, text)?;
    let tokens = tokens_of(alloc, &lexemes)?;
    let end = end_of(&lexemes);
    let (found, rest) = expression(alloc, &tokens, true);
    match found {
        Ok(expr) => {
            if rest.is_empty() {
                Ok(expr)
            } else {
                Err(refusal(rest, end))
            }
        }
        Err(Stop::Unexpected) => Err(refusal(rest, end)),
        Err(Stop::TooLarge) => Err(too_wide(rest, end)),
        Err(Stop::OutOfMemory) => Err(ReadFault::OutOfMemory),
    }
}

/// The expression that a text is, all its lines read as one.
///
/// Parameters and references to memory are read too; parameters are numbered in the order of their first appearance.
/// A text of more than 1,048,576 bytes is TextTooLong, whatever is in it. Another one that is no expression is refused at
/// the first token with which the tokens so far are no front of one: with BadToken where it is a byte at which no token
/// begins, else with Unexpected, as a `;` is. Where its tokens end too early it is Unexpected behind the last byte of the
/// last line. An index of 2^64 or more is NumberTooWide, unless the text is refused before it. Any text that isn't too long
/// may be refused for want of memory.
pub fn parse_expr(alloc: Global, text: &[u8]) -> Result<Expr, ReadFault>
    // What is given is what the grammar relates to the bytes, and no other expression is.
    ensures found { IfOk result (λ steps. IsExpressionOf text.now steps) }
    ensures only { (steps : List Step) → IsExpressionOf text.now steps → Gives result (Ok steps) }
    // A text is refused with its fault, and with no other. One that is too long takes no memory.
    ensures refused { IfErr result (IsFault text.now) }
    ensures only_fault { (f : fault.ReadFault) → f ≢ ReadFault.OutOfMemory → IsFault text.now f → Gives result (Err f) }
    ensures too_long { MOST_BYTES < length text.now → result ≡ Err (ReadFault.TextTooLong (length text.now)) }
{
    if text.len() > MOST_BYTES {
        return Err(ReadFault::TextTooLong {
            length: text.len() as u64,
        });
    }
    read(alloc, text)
}
