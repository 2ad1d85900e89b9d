//! Why a program is refused.

ghost use Rattle.std.specs.Prelude.{◌≡◌, ◌<◌, length};
ghost use Rattle.quil_code.specs.declared.load_fault.LoadFault.TheVariants.{OutOfMemory};
ghost use Rattle.quil_code.specs.Faults.{load_fault_of, load_report, place_report, word_report, line_word_report, number_report, cell_report};

use crate::fault::{angle_inexact, of_line};
use quil_memory::{LayoutFault, Name};
use qvm_diagnostic::{Detail, Diagnostic};
use std::alloc::AllocError;

/// Why a program is refused. Lines and columns count from 1, columns in bytes.
#[derive(Debug, PartialEq, Eq, Drop)]
pub enum LoadFault {
    /// An expression has no value that the machine keeps exactly.
    NotExact { line: u32, column: u32 },
    /// An expression divides by 0.
    ZeroDivisor { line: u32, column: u32 },
    /// A number is too large for its place.
    NumberTooWide { line: u32, column: u32 },
    /// No token begins at this byte.
    BadToken { line: u32, column: u32 },
    /// Nothing that may stand there begins with the tokens up to this one.
    Unexpected { line: u32, column: u32 },
    /// The text has this many bytes, more than 1,048,576.
    TextTooLong { length: u64 },
    /// The language leaves out what this word begins.
    LeftOut { line: u32, word: Name },
    /// The name is defined before.
    Redeclared { word: Name },
    /// No region of this name is declared.
    UnknownRegion { word: Name },
    /// The region ends behind the end of the region whose bits it shares.
    ShareOutside { word: Name },
    /// The first bit of the region, counted in the region without SHARING below it, is no multiple of its type's size.
    Misaligned { word: Name },
    /// The regions without SHARING have this many bits, or at least 2^64 − 1: more than 65,536.
    MemoryTooLarge { bits: u64 },
    /// The region has no cell with this index.
    OutOfRange { index: u64, length: u64, word: Name },
    /// The matrix of this gate isn't unitary.
    NotUnitary { word: Name },
    /// RX, RY or RZ under CONTROLLED or FORKED has an odd number of eighths of a turn.
    AngleInexact { line: u32, eighths: i64 },
    /// The numbers of parameters or qubits aren't those of the definition, or a definition hasn't 2, 4 or 8 rows.
    Arity { line: u32 },
    /// A gate names a qubit twice.
    RepeatedQubit { line: u32 },
    /// No gate or circuit of this name is known, or a circuit has modifiers.
    UnknownGate { line: u32, word: Name },
    /// An entry of this gate needs a greater denominator than 2^20.
    EntryTooLarge { word: Name },
    /// Circuits call one another more than 32 deep.
    CircuitDepth { line: u32 },
    /// The expanded program has so many instructions, more than 65,536.
    TooManyInstructions { count: u64 },
    /// A jump has no label in its expansion.
    UnknownLabel { line: u32, word: Name },
    /// A label stands twice in one expansion.
    RepeatedLabel { line: u32, word: Name },
    /// An operand isn't of the type that the instruction asks for.
    TypeClash { line: u32 },
    /// The program has so many qubits, more than 16.
    TooManyQubits { count: u64 },
    /// This part of the language isn't built yet.
    NotBuilt { line: u32 },
    /// Memory ran out.
    OutOfMemory,
}

impl From<AllocError> for LoadFault {
    ghost from_gives = { λ _ e. e ≡ OutOfMemory };

    fn from(_e: AllocError) -> LoadFault {
        LoadFault::OutOfMemory
    }
}

impl From<LayoutFault> for LoadFault {
    ghost from_gives = { λ f g. g ≡ load_fault_of f };

    fn from(fault: LayoutFault) -> LoadFault {
        match fault {
            LayoutFault::Redeclared { word } => LoadFault::Redeclared { word },
            LayoutFault::UnknownRegion { word } => LoadFault::UnknownRegion { word },
            LayoutFault::ShareOutside { word } => LoadFault::ShareOutside { word },
            LayoutFault::Misaligned { word } => LoadFault::Misaligned { word },
            LayoutFault::MemoryTooLarge { bits } => LoadFault::MemoryTooLarge { bits },
            LayoutFault::OutOfMemory => LoadFault::OutOfMemory,
        }
    }
}

fn out_of_memory() -> Diagnostic<'static>
    ensures { result ≡ load_report OutOfMemory }
{
    Diagnostic::new(37, "OutOfMemory", &[])
}

// A refusal that tells a place of the text.
fn of_place(code: u16, name: &'static str, line: u32, column: u32) -> Diagnostic<'static>
    ensures { result ≡ place_report code name.now line column }
{
    Diagnostic::new(
        code,
        name,
        &[
            ("column", Detail::Count(u64::from(column))),
            ("line", Detail::Count(u64::from(line))),
        ],
    )
}

fn of_word<'a>(code: u16, name: &'static str, word: &'a Name) -> Diagnostic<'a>
    ensures { result ≡ word_report code name.now word.now }
{
    Diagnostic::new(code, name, &[("word", Detail::Word(word.as_bytes()))])
}

// A refusal of a word that stands at a line.
fn of_use<'a>(code: u16, name: &'static str, line: u32, word: &'a Name) -> Diagnostic<'a>
    ensures { result ≡ line_word_report code name.now line word.now }
{
    Diagnostic::new(
        code,
        name,
        &[
            ("line", Detail::Count(u64::from(line))),
            ("word", Detail::Word(word.as_bytes())),
        ],
    )
}

// A refusal that tells one number under a key.
fn of_number(code: u16, name: &'static str, key: &'static str, number: u64) -> Diagnostic<'static>
    requires { 0 < length key.now }
    ensures { result ≡ number_report code name.now key.now number }
{
    Diagnostic::new(code, name, &[(key, Detail::Count(number))])
}

fn of_cell<'a>(index: u64, length: u64, word: &'a Name) -> Diagnostic<'a>
    ensures { result ≡ cell_report index length word.now }
{
    Diagnostic::new(
        14,
        "OutOfRange",
        &[
            ("index", Detail::Count(index)),
            ("length", Detail::Count(length)),
            ("word", Detail::Word(word.as_bytes())),
        ],
    )
}

impl LoadFault {
    /// What the refusal says.
    pub fn diagnostic(&self) -> Diagnostic<'_>
        ensures { result ≡ load_report self.now }
    {
        // An arm that lends a word returns at once, since the others lend nothing and the borrows could not join.
        match self {
            Self::NotExact { line, column } => of_place(2, "NotExact", *line, *column),
            Self::ZeroDivisor { line, column } => of_place(3, "ZeroDivisor", *line, *column),
            Self::NumberTooWide { line, column } => of_place(4, "NumberTooWide", *line, *column),
            Self::BadToken { line, column } => of_place(5, "BadToken", *line, *column),
            Self::Unexpected { line, column } => of_place(6, "Unexpected", *line, *column),
            Self::TextTooLong { length } => of_number(7, "TextTooLong", "length", *length),
            Self::LeftOut { line, word } => return of_use(8, "LeftOut", *line, word),
            Self::Redeclared { word } => return of_word(9, "Redeclared", word),
            Self::UnknownRegion { word } => return of_word(10, "UnknownRegion", word),
            Self::ShareOutside { word } => return of_word(11, "ShareOutside", word),
            Self::Misaligned { word } => return of_word(12, "Misaligned", word),
            Self::MemoryTooLarge { bits } => of_number(13, "MemoryTooLarge", "bits", *bits),
            Self::OutOfRange {
                index,
                length,
                word,
            } => return of_cell(*index, *length, word),
            Self::NotUnitary { word } => return of_word(16, "NotUnitary", word),
            Self::AngleInexact { line, eighths } => angle_inexact(*line, *eighths),
            Self::Arity { line } => of_line(18, "Arity", *line),
            Self::RepeatedQubit { line } => of_line(19, "RepeatedQubit", *line),
            Self::UnknownGate { line, word } => return of_use(20, "UnknownGate", *line, word),
            Self::EntryTooLarge { word } => return of_word(21, "EntryTooLarge", word),
            Self::CircuitDepth { line } => of_line(22, "CircuitDepth", *line),
            Self::TooManyInstructions { count } => of_number(
                23,
                "TooManyInstructions",
                "count",
                *count,
            ),
            Self::UnknownLabel { line, word } => return of_use(24, "UnknownLabel", *line, word),
            Self::RepeatedLabel { line, word } => return of_use(25, "RepeatedLabel", *line, word),
            Self::TypeClash { line } => of_line(26, "TypeClash", *line),
            Self::TooManyQubits { count } => of_number(27, "TooManyQubits", "count", *count),
            Self::NotBuilt { line } => of_line(57, "NotBuilt", *line),
            Self::OutOfMemory => out_of_memory(),
        }
    }
}
