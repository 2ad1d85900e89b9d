//! Classical instructions, as in the Quil specification. An instruction holds the type of its cells once, and a cell is its first
//! bit among all bits of memory.

ghost use Rattle.std.specs.Prelude.{◌≡◌};
ghost use Rattle.quil_code.specs.Operands.{arithmetic_type, bitwise_type};

use quil_memory::CellType;

/// A cell of memory. Its type stands in the instruction.
#[derive(Clone, Copy, Debug, PartialEq, Eq)]
pub struct Cell {
    pub first: u32,
}

/// What is read as an operand.
#[derive(Clone, Copy, Debug, PartialEq, Eq)]
pub enum Source {
    FromCell(Cell),
    /// A value in the operand's type. A REAL is a count of eighths of a turn.
    Literal(i64),
}

/// The cells of a region, for LOAD and STORE: the region's number from 0, its first bit, and how many cells it has.
#[derive(Clone, Copy, Debug, PartialEq, Eq)]
pub struct Span {
    pub region: u32,
    pub first: u32,
    pub length: u64,
}

/// The types of sums and of NEG.
#[derive(Clone, Copy, Debug, PartialEq, Eq)]
pub enum Arithmetic {
    Integer,
    Real,
}

impl Arithmetic {
    /// As a type of cells.
    pub fn cell_type(self) -> CellType
        ensures { result ≡ arithmetic_type self }
    {
        match self {
            Arithmetic::Integer => CellType::Integer,
            Arithmetic::Real => CellType::Real,
        }
    }
}

/// The types of NOT, AND, IOR, XOR and CONVERT.
#[derive(Clone, Copy, Debug, PartialEq, Eq)]
pub enum Bitwise {
    Bit,
    Octet,
    Integer,
}

impl Bitwise {
    /// As a type of cells.
    pub fn cell_type(self) -> CellType
        ensures { result ≡ bitwise_type self }
    {
        match self {
            Bitwise::Bit => CellType::Bit,
            Bitwise::Octet => CellType::Octet,
            Bitwise::Integer => CellType::Integer,
        }
    }
}

/// ADD and SUB.
#[derive(Clone, Copy, Debug, PartialEq, Eq)]
pub enum SumOperation {
    Add,
    Sub,
}

/// MUL and DIV, which is towards zero.
#[derive(Clone, Copy, Debug, PartialEq, Eq)]
pub enum ProductOperation {
    Mul,
    Div,
}

/// AND, IOR and XOR.
#[derive(Clone, Copy, Debug, PartialEq, Eq)]
pub enum BitOperation {
    And,
    Ior,
    Xor,
}

/// EQ, GT, GE, LT and LE.
#[derive(Clone, Copy, Debug, PartialEq, Eq)]
pub enum Comparison {
    Eq,
    Gt,
    Ge,
    Lt,
    Le,
}

/// A classical instruction.
#[derive(Clone, Copy, Debug, PartialEq, Eq)]
pub enum Classic {
    /// MOVE: the target becomes the source.
    Move {
        kind: CellType,
        target: Cell,
        source: Source,
    },
    /// EXCHANGE: one becomes what the other was, and then the other what the one was.
    Exchange {
        kind: CellType,
        one: Cell,
        other: Cell,
    },
    /// ADD and SUB.
    Sum {
        operation: SumOperation,
        kind: Arithmetic,
        target: Cell,
        source: Source,
    },
    /// MUL and DIV of an INTEGER.
    Product {
        operation: ProductOperation,
        target: Cell,
        source: Source,
    },
    /// NEG.
    Neg {
        kind: Arithmetic,
        target: Cell,
    },
    /// NOT.
    Not {
        kind: Bitwise,
        target: Cell,
    },
    /// AND, IOR and XOR.
    Bits {
        operation: BitOperation,
        kind: Bitwise,
        target: Cell,
        source: Source,
    },
    /// CONVERT: the target, of type `kind`, becomes the value of the source, of type `from`.
    Convert {
        kind: Bitwise,
        target: Cell,
        from: Bitwise,
        source: Cell,
    },
    /// LOAD: the target becomes the cell of the span at the index, an INTEGER.
    Load {
        kind: CellType,
        target: Cell,
        span: Span,
        index: Cell,
    },
    /// STORE: the cell of the span at the index, an INTEGER, becomes the source.
    Store {
        kind: CellType,
        span: Span,
        index: Cell,
        source: Source,
    },
    /// EQ, GT, GE, LT and LE: the target, a BIT, becomes 1 or 0.
    Compare {
        comparison: Comparison,
        kind: CellType,
        target: Cell,
        left: Cell,
        right: Source,
    },
}
