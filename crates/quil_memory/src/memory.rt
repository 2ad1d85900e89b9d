//! Memory: the bits of all regions.

ghost use Rattle.std.specs.Prelude.{◌≡◌, ◌≢◌, ℕ, ◌+◌, ◌<◌, ◌≤◌, ◌∷◌, ◌++◌, Some, false, length, replicate, take, drop, slice_get, IfOk, IfSome, IsSomeAnd, if◌then◌else◌};
ghost use Rattle.std.specs.Int.{bit_at};
ghost use Rattle.quil_memory.specs.CellTypes.{size, InType};
ghost use Rattle.quil_memory.specs.Cells.{word_at, with_word, value_at, with_value};
ghost use Rattle.quil_memory.specs.Layout.{first_bit};

use crate::cell_type::CellType;
use crate::regions::Layout;
use std::alloc::{AllocError, Global};
use std::marker::Model;

/// The bits of all regions, eight to a byte. Contracts see the list of the bits.
#[derive(Drop)]
pub struct Memory {
    bytes: Vec<u8>,
    count: u32,
}

impl Model for Memory {
    ghost use Rattle.std.specs.Prelude.{◌≤◌, ◌*◌, List, Bool, length};
    ghost use Rattle.quil_memory.specs.Packed.{unpacked};

    ghost Value = { List Bool };

    ghost view = { λ m. unpacked m.count m.bytes.items };

    ghost invariant = { λ m. m.count ≤ length m.bytes.items * 8 };
}

impl Memory {
    /// Memory of a layout, all bits 0.
    pub fn zeros(alloc: Global, layout: &Layout) -> Result<Memory, AllocError>
        ensures { IfOk result (λ memory. memory ≡ replicate layout.now.bits false) }
    {
        Memory::of_bits(alloc, layout.bits())
    }

    // So many bits, all 0.
    pub(crate) fn of_bits(alloc: Global, bits: u32) -> Result<Memory, AllocError>
        ensures { IfOk result (λ memory. memory ≡ replicate bits false) }
    {
        let bytes = Vec::from_elem(alloc, 0u8, bits.div_ceil(8) as usize)?;
        Ok(Memory { bytes, count: bits })
    }

    // The bit at a place.
    fn bit(&self, place: usize) -> bool
        requires { place < length self.now }
        ensures { slice_get self.now place ≡ Some result }
    {
        let byte = self.bytes[place / 8];
        (byte >> (place % 8)) % 2 == 1
    }

    // Makes the bit at a place this one.
    fn set_bit(&mut self, place: usize, bit: bool)
        requires { place < length self.old }
        ensures { self.new ≡ take place self.old ++ bit ∷ drop (place + 1) self.old }
    {
        let index = place / 8;
        self.bytes[index] = with_bit(self.bytes[index], place % 8, bit);
    }

    /// The bits of a cell that begins at a bit, as a number with the first bit the least.
    pub fn word(&self, kind: CellType, first: u32) -> u64
        requires { first + size kind ≤ length self.now }
        ensures { result ≡ word_at kind first self.now }
    {
        let mut word = 0;
        let mut left = kind.size() as usize;
        while left > 0 {
            left -= 1;
            word = word * 2 + u64::from(self.bit(first as usize + left));
        }
        word
    }

    /// Makes the bits of a cell that begins at a bit those of a number. All others stay.
    pub fn set_word(&mut self, kind: CellType, first: u32, word: u64)
        requires { first + size kind ≤ length self.old }
        ensures { self.new ≡ with_word kind first word self.old }
    {
        let end = first as usize + kind.size() as usize;
        let mut place = first as usize;
        let mut rest = word;
        while place < end {
            self.set_bit(place, rest % 2 == 1);
            rest /= 2;
            place += 1;
        }
    }

    /// The value of a cell that begins at a bit. INTEGER and REAL are two's complement.
    pub fn value(&self, kind: CellType, first: u32) -> i64
        requires { first + size kind ≤ length self.now }
        ensures { result ≡ value_at kind first self.now }
    {
        self.word(kind, first).cast_signed()
    }

    /// Puts a value into a cell that begins at a bit. All other bits stay.
    pub fn set_value(&mut self, kind: CellType, first: u32, value: i64)
        requires within { first + size kind ≤ length self.old }
        ensures { self.new ≡ with_value kind first value self.old }
    {
        self.set_word(kind, first, value.cast_unsigned())
    }

    /// The value of a region's cell, in a memory of that layout.
    #[tactic(auto, using(crate::proofs::Layouts::cell_ends, crate::proofs::Layouts::region_ends))]
    pub fn get(&self, layout: &Layout, region: u32, index: u64) -> i64
        requires bits { length self.now ≡ layout.now.bits }
        requires cell { IsSomeAnd (slice_get layout.now.regions region) (λ r. index < r.length) }
        ensures { IfSome (slice_get layout.now.regions region) (λ r. result ≡ value_at r.kind (first_bit r index) self.now) }
    {
        let region = layout.region(region);
        self.value(region.kind, region.first_bit(index))
    }

    /// Puts a value that is in its type into a region's cell, in a memory of that layout. All other bits stay.
    #[tactic(auto, using(crate::proofs::Layouts::cell_ends, crate::proofs::Layouts::region_ends))]
    pub fn set(&mut self, layout: &Layout, region: u32, index: u64, value: i64)
        requires bits { length self.old ≡ layout.now.bits }
        requires cell { IsSomeAnd (slice_get layout.now.regions region) (λ r. index < r.length) }
        requires value { IfSome (slice_get layout.now.regions region) (λ r. InType r.kind value) }
        ensures { IfSome (slice_get layout.now.regions region) (λ r. self.new ≡ with_value r.kind (first_bit r index) value self.old) }
    {
        let region = layout.region(region);
        self.set_value(region.kind, region.first_bit(index), value)
    }
}

// A byte with this bit at a place.
fn with_bit(byte: u8, place: usize, bit: bool) -> u8
    requires { place < 8 }
    ensures same { bit_at result place ≡ (if bit then 1 else 0) }
    ensures others { (other : ℕ) → other < 8 → other ≢ place → bit_at result other ≡ bit_at byte other }
{
    let mask = 1u8 << place;
    if bit { byte | mask } else { byte & !mask }
}
