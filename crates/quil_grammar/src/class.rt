//! Classes of tokens: the places that the grammar has for one.

ghost use Rattle.std.specs.Prelude.{◌≡◌};
ghost use Rattle.quil_grammar.specs.Grammar.{accepts};
ghost use Rattle.quil_grammar.specs.Sort.{is_name, is_sort, is_whole};

use crate::sort::Sort;

/// A place for a token in an expression or a line.
#[derive(Clone, Copy, Debug, PartialEq, Eq)]
pub enum Class {
    /// A number that isn't imaginary.
    Number,
    Imaginary,
    Pi,
    I,
    Parameter,
    /// The name of a region of memory, where references are taken.
    Region(bool),
    /// The number in the brackets behind a region.
    Index,
    /// `sqrt`, `sin`, `cos`, `cis` and `exp`.
    Function,
    /// `+` and `-` between terms.
    Additive,
    /// `+` and `-` before an expression.
    Sign,
    /// `*` and `/`.
    Multiplicative,
    /// `^`
    Caret,
    /// `(` round an expression.
    Parenthesis,
    /// `(` behind a function.
    ArgumentBegins,
    /// `)`
    ParenthesisEnds,
    /// `[`
    IndexBegins,
    /// `]`
    IndexEnds,
    Declare,
    /// `BIT`, `OCTET`, `INTEGER` and `REAL`.
    CellType,
    /// The number of cells of a region, which isn't 0.
    Length,
    Sharing,
    Offset,
    /// The number of cells in an offset.
    OffsetCount,
    /// A name that something is given, or that is referred to.
    Named,
    DefGate,
    As,
    Matrix,
    Permutation,
    /// A form of a gate's definition that is left out.
    LeftOutForm,
    DefCircuit,
    Colon,
    Comma,
    /// `(` before parameters.
    ListBegins,
    /// `)` behind parameters.
    ListEnds,
    /// A parameter that a definition names.
    TakenParameter,
    /// A number of a permutation.
    Entry,
    /// `CONTROLLED` and `DAGGER`.
    Modifier,
    Forked,
    /// `FORKED` behind four others.
    FifthForked,
    /// The name of a gate or a circuit that begins a statement.
    Gate,
    Qubit,
    Measure,
    Reset,
    /// `WAIT`, `NOP` and `HALT`.
    Bare,
    Pragma,
    /// Any token of a pragma.
    Any,
    /// `LABEL` and `JUMP`.
    LabelWord,
    /// `JUMP-WHEN` and `JUMP-UNLESS`.
    JumpIf,
    Label,
    /// `NOT` and `NEG`.
    UnaryWord,
    /// `EXCHANGE` and `CONVERT`.
    PairWord,
    /// `MOVE`, `ADD`, `SUB`, `MUL`, `DIV`, `AND`, `IOR` and `XOR`.
    BinaryWord,
    Load,
    Store,
    /// `EQ`, `GT`, `GE`, `LT` and `LE`.
    CompareWord,
    /// A word that is left out, where a statement begins.
    LeftOut,
    /// No token stands here.
    Nothing,
    /// A number at the head of an operand.
    OperandNumber,
    /// A sign at the head of an operand.
    OperandSign,
}

impl Sort {
    /// The two are the same.
    pub fn is(self, other: Sort) -> bool
        ensures { result ≡ is_sort self other }
    {
        self == other
    }
}

impl Sort {
    // A name.
    fn is_name(self) -> bool
        ensures { result ≡ is_name self }
    {
        self.is(Sort::Name)
            || self.is(Sort::LeftOut)
            || self.is(Sort::LeftOutForm)
            || self.is(Sort::Formal)
    }

    // A whole number.
    fn is_whole(self) -> bool
        ensures { result ≡ is_whole self }
    {
        self.is(Sort::Zero) || self.is(Sort::Whole)
    }
}

impl Class {
    /// A token of the sort may stand in the place.
    pub fn accepts(self, sort: Sort) -> bool
        ensures { result ≡ accepts self sort }
    {
        match self {
            Class::Number => {
                sort.is(Sort::Zero) || sort.is(Sort::Whole) || sort.is(Sort::Decimal)
            }
            Class::Imaginary => sort.is(Sort::Imaginary),
            Class::Pi => sort.is(Sort::Pi),
            Class::I => sort.is(Sort::I),
            Class::Parameter => sort.is(Sort::Parameter),
            Class::Region(references) => sort.is_name() && references,
            Class::Index => sort.is(Sort::Zero) || sort.is(Sort::Whole),
            Class::Function => {
                sort.is(Sort::Sqrt)
                    || sort.is(Sort::Sin)
                    || sort.is(Sort::Cos)
                    || sort.is(Sort::Cis)
                    || sort.is(Sort::Exp)
            }
            Class::Additive | Class::Sign => sort.is(Sort::Plus) || sort.is(Sort::Minus),
            Class::Multiplicative => sort.is(Sort::Star) || sort.is(Sort::Slash),
            Class::Caret => sort.is(Sort::Caret),
            Class::Parenthesis | Class::ArgumentBegins => sort.is(Sort::LeftParenthesis),
            Class::ParenthesisEnds => sort.is(Sort::RightParenthesis),
            Class::IndexBegins => sort.is(Sort::LeftBracket),
            Class::IndexEnds => sort.is(Sort::RightBracket),
            Class::Declare => sort.is(Sort::Declare),
            Class::CellType => {
                sort.is(Sort::Bit)
                    || sort.is(Sort::Octet)
                    || sort.is(Sort::Integer)
                    || sort.is(Sort::Real)
            }
            Class::Length => sort.is(Sort::Whole),
            Class::Sharing => sort.is(Sort::Sharing),
            Class::Offset => sort.is(Sort::Offset),
            Class::OffsetCount => sort.is(Sort::Zero) || sort.is(Sort::Whole),
            Class::Named => sort.is_name(),
            Class::DefGate => sort.is(Sort::DefGate),
            Class::As => sort.is(Sort::As),
            Class::Matrix => sort.is(Sort::Matrix),
            Class::Permutation => sort.is(Sort::Permutation),
            Class::LeftOutForm => sort.is(Sort::LeftOutForm),
            Class::DefCircuit => sort.is(Sort::DefCircuit),
            Class::Colon => sort.is(Sort::Colon),
            Class::Comma => sort.is(Sort::Comma),
            Class::ListBegins => sort.is(Sort::LeftParenthesis),
            Class::ListEnds => sort.is(Sort::RightParenthesis),
            Class::TakenParameter => sort.is(Sort::Parameter) || sort.is(Sort::Unknown),
            Class::Entry => sort.is(Sort::Zero) || sort.is(Sort::Whole),
            Class::Modifier => sort.is(Sort::Controlled) || sort.is(Sort::Dagger),
            Class::Forked => sort.is(Sort::Forked),
            Class::FifthForked => sort.is(Sort::Forked),
            Class::Gate => sort.is(Sort::Name) || sort.is(Sort::LeftOutForm),
            Class::Qubit => sort.is_whole() || sort.is(Sort::Formal),
            Class::Measure => sort.is(Sort::Measure),
            Class::Reset => sort.is(Sort::Reset),
            Class::Bare => sort.is(Sort::Wait) || sort.is(Sort::Nop) || sort.is(Sort::Halt),
            Class::Pragma => sort.is(Sort::Pragma),
            Class::Any => !sort.is(Sort::Semicolon) && !sort.is(Sort::Bad),
            Class::LabelWord => sort.is(Sort::LabelWord) || sort.is(Sort::Jump),
            Class::JumpIf => sort.is(Sort::JumpWhen) || sort.is(Sort::JumpUnless),
            Class::Label => sort.is(Sort::Label),
            Class::UnaryWord => sort.is(Sort::Not) || sort.is(Sort::Neg),
            Class::PairWord => sort.is(Sort::Exchange) || sort.is(Sort::Convert),
            Class::BinaryWord => {
                sort.is(Sort::Move)
                    || sort.is(Sort::Add)
                    || sort.is(Sort::Sub)
                    || sort.is(Sort::Mul)
                    || sort.is(Sort::Div)
                    || sort.is(Sort::And)
                    || sort.is(Sort::Ior)
                    || sort.is(Sort::Xor)
            }
            Class::Load => sort.is(Sort::Load),
            Class::Store => sort.is(Sort::Store),
            Class::CompareWord => {
                sort.is(Sort::Eq)
                    || sort.is(Sort::Gt)
                    || sort.is(Sort::Ge)
                    || sort.is(Sort::Lt)
                    || sort.is(Sort::Le)
            }
            Class::LeftOut => sort.is(Sort::LeftOut),
            Class::Nothing => false,
            Class::OperandNumber => {
                sort.is(Sort::Zero) || sort.is(Sort::Whole) || sort.is(Sort::Decimal)
            }
            Class::OperandSign => sort.is(Sort::Plus) || sort.is(Sort::Minus),
        }
    }
}
