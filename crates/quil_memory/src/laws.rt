//! Laws of the definitions: functions that do nothing, each with its statement as its contract.

ghost use Rattle.std.specs.Prelude.{◌≡◌, ◌+◌, ◌<◌, ◌≤◌, ℕ, ℤ, List, Bool, length, slice_get, ◌⊎◌};
ghost use Rattle.quil_memory.specs.declared.cell_type.CellType.{CellType};
ghost use Rattle.quil_memory.specs.CellTypes.{size, InType};
ghost use Rattle.quil_memory.specs.Cells.{value_at, with_value, word_at, with_word};

/// A value that is in its type reads back where it was written.
pub fn written_cell_reads_back()
    ensures { (kind : CellType) (first : ℕ) (z : ℤ) (bits : List Bool) → first + size kind ≤ length bits → InType kind z → value_at kind first (with_value kind first z bits) ≡ z }
{}

/// A written cell changes no other bit.
pub fn other_bits_stay()
    ensures { (kind : CellType) (first n place : ℕ) (bits : List Bool) → first + size kind ≤ length bits → (place < first) ⊎ (first + size kind ≤ place) → slice_get (with_word kind first n bits) place ≡ slice_get bits place }
{}

/// Cells without a common bit don't see each other.
pub fn apart_cells_stay()
    ensures { (kind other : CellType) (first second n : ℕ) (bits : List Bool) → first + size kind ≤ length bits → (second + size other ≤ first) ⊎ (first + size kind ≤ second) → word_at other second (with_word kind first n bits) ≡ word_at other second bits }
{}

/// A written cell keeps the number of bits.
pub fn same_length()
    ensures { (kind : CellType) (first n : ℕ) (bits : List Bool) → first + size kind ≤ length bits → length (with_word kind first n bits) ≡ length bits }
{}
