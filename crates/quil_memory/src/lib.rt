//! The typed memory of a Quil program: which regions its declarations lay out, and the bits of them.
//!
//! `layout` gives the layout of declarations, or the first fault of the first that has one (`specs/Layout.antt`). A
//! `Memory` is a list of bits for contracts, and a cell is the number of a run of them (`specs/Cells.antt`), so regions that
//! share bits need no rule of their own.
#![tactic(auto)]

mod cell_type;
mod claim;
mod declarations;
mod eighths;
mod fault;
mod laws;
mod memory;
mod name;
mod region;
mod regions;
mod widths;

pub use cell_type::CellType;
pub use claim::{Claim, Offset, Offsets, Share};
pub use declarations::layout;
pub use eighths::push_eighths;
pub use fault::LayoutFault;
pub use laws::{apart_cells_stay, other_bits_stay, same_length, written_cell_reads_back};
pub use memory::Memory;
pub use name::Name;
pub use region::Region;
pub use regions::{Layout, MOST_BITS};
