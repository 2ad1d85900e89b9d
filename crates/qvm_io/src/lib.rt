//! The outside world: what gives bytes, what takes bytes, and what gives random words.
//!
//! Each of the three traits counts its faults. `Failed` is answered only where that count rose in
//! the call, so a caller can prove that a fault it reports did happen. A call that succeeds leaves the
//! count as it was, so a caller can also prove that none of its calls failed. Where an object tells what
//! it has left or what it took, contracts name the exact bytes or words; where it doesn't, they claim
//! nothing of them. The forms in memory are for tests and tell all; the forms over std tell what std's
//! reader or writer tells, which of the process's own streams is nothing.
//! A source also tells how often a read answered 0, so that a caller can prove that it read nothing
//! behind the end. That number stands in proofs alone and has no bound.
//! `read_all` and `write_all` are the loops that every command needs.
#![tactic(auto)]

mod errors;
mod laws;
mod mem_dice;
mod mem_sink;
mod mem_source;
mod outside;
mod std_sink;
mod std_source;
mod system_dice;
mod tally;
#[cfg(test)]
mod tests;
mod transfer;

pub use errors::{Failed, OutOfMemory, ReadError};
pub use laws::{fronts_join, next_count_rises, rise_in_part_is_rise};
pub use mem_dice::MemDice;
pub use mem_sink::MemSink;
pub use mem_source::MemSource;
pub use outside::{Dice, Sink, Source};
pub use std_sink::StdSink;
pub use std_source::StdSource;
pub use system_dice::SystemDice;
pub use transfer::{read_all, write_all};
