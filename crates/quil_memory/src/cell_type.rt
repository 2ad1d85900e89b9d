//! The types of cells.

ghost use Rattle.std.specs.Prelude.{◌≡◌};
ghost use Rattle.quil_memory.specs.CellTypes.{size};

/// The type of a region's cells, as in the Quil specification.
#[derive(Clone, Copy, Debug, PartialEq, Eq)]
pub enum CellType {
    /// One bit: 0 or 1.
    Bit,
    /// Eight bits: 0 to 255.
    Octet,
    /// 64 bits in two's complement.
    Integer,
    /// 64 bits in two's complement: a count of eighths of a turn.
    Real,
}

impl CellType {
    /// The bits of a cell: 1, 8, 64 or 64.
    pub fn size(self) -> u32
        ensures bits { result ≡ size self }
    {
        match self {
            CellType::Bit => 1,
            CellType::Octet => 8,
            CellType::Integer | CellType::Real => 64,
        }
    }
}
