//! Sorts of tokens: what the grammar tells apart.

ghost use Rattle.std.specs.Prelude.{◌≡◌, ◌==◌, map};
ghost use Rattle.std.specs.List.{list_all};
ghost use Rattle.quil_grammar.specs.Sort.{sort_among, sort_of, sort_of_mark, word_sort};

use quil_lex::{Kind, Mark};

/// What a token is to the grammar. It is the token's kind, but words of the language are told apart from names. A `;`, and
/// the byte at which no token begins, are tokens too.
#[derive(Clone, Copy, Debug, PartialEq, Eq)]
pub enum Sort {
    /// A name that the language doesn't keep for itself.
    Name,
    /// A word that is left out of the language: no statement begins with it, and it is a name elsewhere.
    LeftOut,
    /// A form of a gate that is left out: it doesn't stand behind `AS`, and is a name elsewhere.
    LeftOutForm,
    /// A name that stands for a qubit of the circuit whose body is read.
    Formal,
    Declare,
    Bit,
    Octet,
    Integer,
    Real,
    Sharing,
    Offset,
    DefGate,
    As,
    Matrix,
    Permutation,
    DefCircuit,
    Controlled,
    Dagger,
    Forked,
    Measure,
    Reset,
    Wait,
    Nop,
    Halt,
    Pragma,
    LabelWord,
    Jump,
    JumpWhen,
    JumpUnless,
    Not,
    Neg,
    Exchange,
    Convert,
    Move,
    Add,
    Sub,
    Mul,
    Div,
    And,
    Ior,
    Xor,
    Load,
    Store,
    Eq,
    Gt,
    Ge,
    Lt,
    Le,
    Pi,
    I,
    Sqrt,
    Sin,
    Cos,
    Cis,
    Exp,
    /// A whole number that is 0.
    Zero,
    /// A whole number that isn't 0.
    Whole,
    Decimal,
    Imaginary,
    Str,
    Parameter,
    /// A parameter that isn't known where it stands.
    Unknown,
    Label,
    LeftParenthesis,
    RightParenthesis,
    LeftBracket,
    RightBracket,
    Comma,
    Colon,
    Plus,
    Minus,
    Star,
    Slash,
    Caret,
    Semicolon,
    /// No token begins at this byte.
    Bad,
}

/// The words of the language, and those that it leaves out, each with its sort.
const WORDS: [(&[u8], Sort); 65] = [
    (b"pi", Sort::Pi),
    (b"i", Sort::I),
    (b"sqrt", Sort::Sqrt),
    (b"sin", Sort::Sin),
    (b"cos", Sort::Cos),
    (b"cis", Sort::Cis),
    (b"exp", Sort::Exp),
    (b"DECLARE", Sort::Declare),
    (b"BIT", Sort::Bit),
    (b"OCTET", Sort::Octet),
    (b"INTEGER", Sort::Integer),
    (b"REAL", Sort::Real),
    (b"SHARING", Sort::Sharing),
    (b"OFFSET", Sort::Offset),
    (b"DEFGATE", Sort::DefGate),
    (b"AS", Sort::As),
    (b"MATRIX", Sort::Matrix),
    (b"PERMUTATION", Sort::Permutation),
    (b"DEFCIRCUIT", Sort::DefCircuit),
    (b"CONTROLLED", Sort::Controlled),
    (b"DAGGER", Sort::Dagger),
    (b"FORKED", Sort::Forked),
    (b"MEASURE", Sort::Measure),
    (b"RESET", Sort::Reset),
    (b"WAIT", Sort::Wait),
    (b"NOP", Sort::Nop),
    (b"HALT", Sort::Halt),
    (b"PRAGMA", Sort::Pragma),
    (b"LABEL", Sort::LabelWord),
    (b"JUMP", Sort::Jump),
    (b"JUMP-WHEN", Sort::JumpWhen),
    (b"JUMP-UNLESS", Sort::JumpUnless),
    (b"NOT", Sort::Not),
    (b"NEG", Sort::Neg),
    (b"EXCHANGE", Sort::Exchange),
    (b"CONVERT", Sort::Convert),
    (b"MOVE", Sort::Move),
    (b"ADD", Sort::Add),
    (b"SUB", Sort::Sub),
    (b"MUL", Sort::Mul),
    (b"DIV", Sort::Div),
    (b"AND", Sort::And),
    (b"IOR", Sort::Ior),
    (b"XOR", Sort::Xor),
    (b"LOAD", Sort::Load),
    (b"STORE", Sort::Store),
    (b"EQ", Sort::Eq),
    (b"GT", Sort::Gt),
    (b"GE", Sort::Ge),
    (b"LT", Sort::Lt),
    (b"LE", Sort::Le),
    (b"INCLUDE", Sort::LeftOut),
    (b"TRUE", Sort::LeftOut),
    (b"FALSE", Sort::LeftOut),
    (b"OR", Sort::LeftOut),
    (b"DEFCAL", Sort::LeftOut),
    (b"DEFFRAME", Sort::LeftOut),
    (b"DEFWAVEFORM", Sort::LeftOut),
    (b"PULSE", Sort::LeftOut),
    (b"CAPTURE", Sort::LeftOut),
    (b"RAW-CAPTURE", Sort::LeftOut),
    (b"DELAY", Sort::LeftOut),
    (b"FENCE", Sort::LeftOut),
    (b"PAULI-SUM", Sort::LeftOutForm),
    (b"SEQUENCE", Sort::LeftOutForm),
];

// The sort of a word in a table.
fn sort_among(mut table: &[(&[u8], Sort)], word: &[u8]) -> Sort
    ensures { result ≡ sort_among (map (λ e. (e.0.now, e.1)) table.entry.now) word.now }
{
    while let [entry, rest @ ..] = table {
        if entry.0 == word {
            return entry.1;
        }
        table = rest;
    }
    Sort::Name
}

// The sort of a name's bytes.
fn word_sort(word: &[u8]) -> Sort
    ensures { result ≡ word_sort word.now }
{
    sort_among(&WORDS, word)
}

fn sort_of_mark(mark: Mark) -> Sort
    ensures { result ≡ sort_of_mark mark }
{
    match mark {
        Mark::LeftParenthesis => Sort::LeftParenthesis,
        Mark::RightParenthesis => Sort::RightParenthesis,
        Mark::LeftBracket => Sort::LeftBracket,
        Mark::RightBracket => Sort::RightBracket,
        Mark::Comma => Sort::Comma,
        Mark::Colon => Sort::Colon,
        Mark::Plus => Sort::Plus,
        Mark::Minus => Sort::Minus,
        Mark::Star => Sort::Star,
        Mark::Slash => Sort::Slash,
        Mark::Caret => Sort::Caret,
    }
}

// The digits write 0.
fn is_zero(mut digits: &[u8]) -> bool
    ensures { result ≡ list_all (λ b. b == 48) digits.entry.now }
{
    while let [digit, rest @ ..] = digits {
        if *digit != b'0' {
            return false;
        }
        digits = rest;
    }
    true
}

impl Sort {
    /// The sort of a token of a kind with these bytes.
    pub fn of(kind: Kind, text: &[u8]) -> Sort
        ensures { result ≡ sort_of kind text.now }
    {
        match kind {
            Kind::Name => word_sort(text),
            Kind::Whole => {
                if is_zero(text) {
                    Sort::Zero
                } else {
                    Sort::Whole
                }
            }
            Kind::Decimal => Sort::Decimal,
            Kind::Imaginary => Sort::Imaginary,
            Kind::Str => Sort::Str,
            Kind::Parameter => Sort::Parameter,
            Kind::Label => Sort::Label,
            Kind::Mark(mark) => sort_of_mark(mark),
        }
    }
}
