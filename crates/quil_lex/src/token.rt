//! A token, its kind, and the marks.

/// What a token is.
#[derive(Clone, Copy, Debug, PartialEq, Eq)]
pub enum Kind {
    /// A letter or `_`, then letters, digits, `_` and `-`, the last of them no `-`.
    Name,
    /// Decimal digits.
    Whole,
    /// Digits, then a point and digits, an exponent, or both.
    Decimal,
    /// A whole number or a decimal with `i` behind it.
    Imaginary,
    /// Bytes between `"` and `"`.
    Str,
    /// `%` and a name.
    Parameter,
    /// `@` and a name.
    Label,
    /// One of the marks.
    Mark(Mark),
}

/// A token of one byte.
#[derive(Clone, Copy, Debug, PartialEq, Eq)]
pub enum Mark {
    /// `(`
    LeftParenthesis,
    /// `)`
    RightParenthesis,
    /// `[`
    LeftBracket,
    /// `]`
    RightBracket,
    /// `+`
    Plus,
    /// `-`
    Minus,
    /// `*`
    Star,
    /// `/`
    Slash,
    /// `^`
    Caret,
    /// `,`
    Comma,
    /// `:`
    Colon,
}

/// A token with its place. Lines and columns count from 1, columns in bytes.
#[derive(Clone, Copy, Debug)]
pub struct Token<'a> {
    pub kind: Kind,
    /// Its bytes: a string's with both `"`, a parameter's with `%`, a label's with `@`.
    pub text: &'a [u8],
    pub line: u32,
    pub column: u32,
}
