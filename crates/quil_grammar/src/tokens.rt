//! The tokens of a text, all its lines as one.

ghost use Rattle.std.specs.Prelude.{◌≡◌, map, fold, length, IfOk, OnOk, ◌++◌, ◌∷◌, []};
ghost use Rattle.quil_lex.specs.Reading.{lexeme_of, span_of, spans_of};
ghost use Rattle.quil_tree.specs.Names.{with_name};
ghost use Rattle.quil_grammar.specs.Token.{byte_token, token_of, number_among, names_with, tokens_of, tokens_among, end_tokens, end_of};

use crate::sort::Sort;
use crate::token::Token;
use indexmap::IndexSet;
use quil_lex::{End, Segment, Token as Lexeme, Tokens};
use quil_tree::Place;
use std::alloc::{AllocError, Global};

/// Tokens, and the parameters among them in the order of their first appearance.
#[derive(Drop)]
struct TokenList<'a> {
    names: IndexSet<&'a [u8]>,
    tokens: Vec<Token<'a>>,
}

impl<'a> TokenList<'a> {
    // The number of a parameter, which is the next one where it is new.
    fn number(&mut self, name: &'a [u8]) -> Result<usize, AllocError>
        ensures number { IfOk result (λ n. n ≡ number_among (map (λ k. k.now) self.old.names.keys) name.entry.now) }
        ensures names { OnOk result (map (λ k. k.now) self.new.names.keys ≡ with_name (map (λ k. k.now) self.old.names.keys) name.entry.now) }
        ensures tokens { self.new.tokens ≡ self.old.tokens }
    {
        let (index, _) = self.names.insert_full(name)?;
        Ok(index)
    }

    // Adds a token.
    fn push(&mut self, lexeme: &Lexeme<'a>) -> Result<(), AllocError>
        ensures tokens { OnOk result (self.new.tokens.items ≡ self.old.tokens.items ++ token_of (map (λ k. k.now) self.old.names.keys) (lexeme_of lexeme.now) ∷ []) }
        ensures names { OnOk result (map (λ k. k.now) self.new.names.keys ≡ names_with (map (λ k. k.now) self.old.names.keys) (lexeme_of lexeme.now)) }
    {
        let sort = Sort::of(lexeme.kind, lexeme.text);
        let place = Place {
            line: lexeme.line,
            column: lexeme.column,
        };
        let number = if sort.is(Sort::Parameter) {
            self.number(lexeme.text)?
        } else {
            0
        };
        self.tokens
            .push(Token::new(sort, lexeme.text, place, number))?;
        Ok(())
    }

    // Adds a byte that is a token of its own.
    fn push_byte(&mut self, sort: Sort, line: u32, column: u32) -> Result<(), AllocError>
        ensures tokens { OnOk result (self.new.tokens.items ≡ self.old.tokens.items ++ byte_token sort line column ∷ []) }
        ensures names { self.new.names ≡ self.old.names }
    {
        let place = Place { line, column };
        self.tokens.push(Token::new(sort, &[], place, 0))?;
        Ok(())
    }

    // Adds the tokens before the end of a segment.
    fn push_lexemes(&mut self, mut lexemes: &[Lexeme<'a>]) -> Result<(), AllocError>
        ensures tokens { OnOk result (self.new.tokens.items ≡ self.old.tokens.items ++ tokens_of (map (λ k. k.now) self.old.names.keys) (map lexeme_of lexemes.entry.now)) }
        ensures names { OnOk result (map (λ k. k.now) self.new.names.keys ≡ fold names_with (map (λ k. k.now) self.old.names.keys) (map lexeme_of lexemes.entry.now)) }
    {
        while let [lexeme, rest @ ..] = lexemes {
            self.push(lexeme)?;
            lexemes = rest;
        }
        Ok(())
    }

    // Adds the tokens of a segment, and its end where that is a token.
    fn push_segment(&mut self, segment: &Segment<'a>) -> Result<(), AllocError>
        ensures tokens { OnOk result (self.new.tokens.items ≡ self.old.tokens.items ++ (tokens_of (map (λ k. k.now) self.old.names.keys) (span_of segment.now).lexemes ++ end_tokens segment.now.line segment.now.end)) }
        ensures names { OnOk result (map (λ k. k.now) self.new.names.keys ≡ fold names_with (map (λ k. k.now) self.old.names.keys) (span_of segment.now).lexemes) }
    {
        self.push_lexemes(&segment.tokens)?;
        match segment.end {
            End::Line => Ok(()),
            End::Semicolon(column) => self.push_byte(Sort::Semicolon, segment.line, column),
            End::BadToken(column) => self.push_byte(Sort::Bad, segment.line, column),
        }
    }
}

/// The tokens of a text.
pub(crate) fn tokens_of<'a>(alloc: Global, text: &Tokens<'a>) -> Result<Vec<Token<'a>>, AllocError>
    ensures { IfOk result (λ tokens. tokens.items ≡ tokens_among [] (spans_of text.now)) }
{
    let mut all = TokenList {
        names: IndexSet::new(alloc),
        tokens: Vec::new(alloc),
    };
    let mut segments = text.segments.as_slice();
    while let [segment, rest @ ..] = segments {
        all.push_segment(segment)?;
        segments = rest;
    }
    Ok(all.tokens)
}

/// The place behind the last byte of the last line.
pub(crate) fn end_of(text: &Tokens<'_>) -> Place
    ensures { result ≡ end_of (spans_of text.now) }
{
    match text.segments.last() {
        Some(segment) => Place {
            line: segment.line,
            column: segment.line_end,
        },
        None => Place { line: 1, column: 1 },
    }
}
