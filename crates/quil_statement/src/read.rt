//! Lines, each read from its tokens.

ghost use Rattle.std.specs.Prelude.{◌≡◌, IfOk, IfErr};
ghost use Rattle.quil_grammar.specs.Frames.{StopsFor};
ghost use Rattle.quil_grammar.specs.Statements.{top_level, statement, matrix_row, permutation_row};
ghost use Rattle.quil_statement.specs.Says.{SaysItem, SaysLine, SaysRow, SaysNumbers};

use crate::parser::Parser;
use quil_grammar::{Stop, Token};
use quil_tree::{Formula, Item, Line, List, Text};
use std::alloc::Global;

/// Reads a statement, a declaration or a header from the front of the tokens, and tells what stands behind it, or where
/// reading stopped. A definition has no body yet.
pub fn read_item<'a, 'b>(
    alloc: Global,
    tokens: &'b [Token<'a>],
) -> (Result<Item, Stop>, &'b [Token<'a>])
    ensures ok { IfOk result.0 (λ i. SaysItem top_level tokens.entry.now result.1.now i) }
    ensures err { IfErr result.0 (λ e. StopsFor e top_level tokens.entry.now result.1.now) }
{
    let mut parser = Parser::new(alloc, tokens);
    let found = parser.item(alloc);
    (found, parser.tokens.rest)
}

/// Reads a statement of a circuit's body.
pub fn read_statement<'a, 'b>(
    alloc: Global,
    tokens: &'b [Token<'a>],
) -> (Result<Line, Stop>, &'b [Token<'a>])
    ensures ok { IfOk result.0 (λ l. SaysLine statement tokens.entry.now result.1.now l) }
    ensures err { IfErr result.0 (λ e. StopsFor e statement tokens.entry.now result.1.now) }
{
    let mut parser = Parser::new(alloc, tokens);
    let found = parser.statement(alloc);
    (found, parser.tokens.rest)
}

/// Reads a row of a matrix.
#[tactic(auto, using(crate::proofs::Rows::row_said))]
pub fn read_row<'a, 'b>(
    alloc: Global,
    tokens: &'b [Token<'a>],
) -> (Result<List<Formula>, Stop>, &'b [Token<'a>])
    ensures ok { IfOk result.0 (λ row. SaysRow tokens.entry.now result.1.now row) }
    ensures err { IfErr result.0 (λ e. StopsFor e matrix_row tokens.entry.now result.1.now) }
{
    let mut parser = Parser::new(alloc, tokens);
    let found = parser.formulas(alloc, false);
    (found, parser.tokens.rest)
}

/// Reads the row of a permutation.
#[tactic(auto, using(crate::proofs::Rows::numbers_said))]
pub fn read_numbers<'a, 'b>(
    alloc: Global,
    tokens: &'b [Token<'a>],
) -> (Result<List<Text>, Stop>, &'b [Token<'a>])
    ensures ok { IfOk result.0 (λ row. SaysNumbers tokens.entry.now result.1.now row) }
    ensures err { IfErr result.0 (λ e. StopsFor e permutation_row tokens.entry.now result.1.now) }
{
    let mut parser = Parser::new(alloc, tokens);
    let found = parser.numbers(alloc);
    (found, parser.tokens.rest)
}
