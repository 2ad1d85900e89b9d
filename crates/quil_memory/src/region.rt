//! Regions of a layout.

ghost use Rattle.std.specs.Prelude.{◌≡◌, ◌<◌, ◌≤◌, ◌+◌};
ghost use Rattle.quil_memory.specs.Layout.{first_bit, most_bits, width};

use crate::cell_type::CellType;
use crate::name::Name;

/// A region of memory: so many cells of a type.
#[derive(Drop)]
pub struct Region {
    pub name: Name,
    pub kind: CellType,
    /// How many cells it has.
    pub length: u64,
    /// Its first bit among all bits.
    pub first: u32,
    /// Its first bit among those of the region without SHARING below it.
    pub offset: u32,
}

impl Region {
    /// The first bit of its cell with this index, among all bits.
    pub fn first_bit(&self, index: u64) -> u32
        requires within { index < self.now.length }
        requires few { self.now.first + width self.now.kind self.now.length ≤ most_bits }
        ensures { result ≡ first_bit self.now index }
    {
        self.first + index as u32 * self.kind.size()
    }

    // The bits of all its cells.
    pub(crate) fn width(&self) -> u32
        requires { width self.now.kind self.now.length ≤ most_bits }
        ensures { result ≡ width self.now.kind self.now.length }
    {
        self.length as u32 * self.kind.size()
    }
}
