//! Segments: the tokens between two ends of statements.

ghost use Rattle.std.specs.Prelude.{◌≡◌};
ghost use Rattle.quil_lex.specs.Reading.{first_bad, spans_of};

use crate::token::Token;

/// What a segment ends at.
#[derive(Clone, Copy, Debug, PartialEq, Eq)]
pub enum End {
    /// The end of its line, which is also the end of the text on the last line.
    Line,
    /// A `;` at this column.
    Semicolon(u32),
    /// The byte at this column, at which no token begins. Only the last segment ends so.
    BadToken(u32),
}

/// The tokens of one line up to a `;`, or to the end of the line. It may have none.
#[derive(Debug, Drop)]
pub struct Segment<'a> {
    /// The number of its line, from 1.
    pub line: u32,
    /// Whether the first byte of its line is a space or a tab.
    pub indented: bool,
    pub tokens: Vec<Token<'a>>,
    pub end: End,
    /// The column behind the last byte of its line, where the line's end isn't counted.
    pub line_end: u32,
}

/// A text as its segments, in the order of the text: at least one, and at least one for each line.
#[derive(Debug, Drop)]
pub struct Tokens<'a> {
    pub segments: Vec<Segment<'a>>,
}

impl Tokens<'_> {
    /// The line and the column of the byte at which no token begins, if the last segment ends at one.
    pub fn bad_byte(&self) -> Option<(u32, u32)>
        ensures { result ≡ first_bad (spans_of self.now) }
    {
        let last = self.segments.last()?;
        match last.end {
            End::BadToken(column) => Some((last.line, column)),
            _ => None,
        }
    }
}
