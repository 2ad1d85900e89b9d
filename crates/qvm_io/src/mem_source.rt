ghost use Rattle.std.specs.Prelude.{◌≡◌, ℕ, ◌<◌, List, length, take, drop, Some, IfOk, OnOk, OnErr, is_ok, false, if◌then◌else◌};
ghost use Rattle.qvm_io.specs.Causes.{next_count, Rose, NeverFalls};
ghost use Rattle.qvm_io.specs.Transfer.{answered_end, ends_after};
ghost use Rattle.qvm_io.specs.MemSource.{read_size, read_answer};

use crate::errors::Failed;
use crate::outside::Source;
use crate::tally::Tally;
use std::marker::Model;

/// A source of bytes in memory, which gives them in pieces and fails as it was told.
#[derive(Drop)]
pub struct MemSource {
    bytes: Vec<u8>,
    position: usize,
    pieces: Vec<usize>,
    next_piece: usize,
    failing: Vec<u64>,
    reads: u64,
    faults: u64,
    saw_end: bool,
    ends: Tally,
}

impl Model for MemSource {
    ghost use Rattle.std.specs.Prelude.{◌≤◌, length, drop};
    ghost use Rattle.qvm_io.specs.MemSource.{SourceState};

    ghost Value = { SourceState };

    ghost view = { λ s. record {
      left = drop s.position s.bytes.items;
      pieces = drop s.next_piece s.pieces.items;
      failing = s.failing.items;
      reads = s.reads;
      faults = s.faults;
      saw_end = s.saw_end;
      ends = s.ends.count;
    } };

    ghost invariant = { λ s. s.position ≤ length s.bytes.items };
}

impl MemSource {
    /// A source of these bytes. Each read that doesn't fail uses up one number of `pieces` and gives
    /// at most so many bytes, where 0 counts as 1; after the last number a read fills the buffer. The
    /// reads whose numbers are in `failing` fail; the first read has the number 1.
    pub fn new(bytes: Vec<u8>, pieces: Vec<usize>, failing: Vec<u64>) -> MemSource
        ensures left { result.left ≡ bytes.items }
        ensures pieces { result.pieces ≡ pieces.items }
        ensures failing { result.failing ≡ failing.items }
        ensures reads { result.reads ≡ 0 }
        ensures faults { result.faults ≡ 0 }
        ensures saw_end { result.saw_end ≡ false }
        ensures ends { result.ends ≡ 0 }
    {
        MemSource {
            bytes,
            position: 0,
            pieces,
            next_piece: 0,
            failing,
            reads: 0,
            faults: 0,
            saw_end: false,
            ends: Tally::new(),
        }
    }

    /// How many reads there were, up to the end of 64 bits.
    pub fn reads(&self) -> u64
        ensures { result ≡ self.now.reads }
    {
        self.reads
    }

    /// How many reads failed, up to the end of 64 bits.
    pub fn faults(&self) -> u64
        ensures { result ≡ self.now.faults }
    {
        self.faults
    }

    /// How many bytes the next read gives into a buffer of this length, where it doesn't fail.
    fn next_size(&self, room: usize) -> usize
        ensures { result ≡ read_size self.now room }
    {
        let most = match self.pieces.get(self.next_piece) {
            Some(0) => room.min(1),
            Some(size) => room.min(*size),
            None => room,
        };
        most.min(self.bytes.len() - self.position)
    }
}

impl Source for MemSource {
    ghost bytes_left = { λ s. Some s.left };

    ghost saw_end = { λ s. s.saw_end };

    ghost ends = { λ s. s.ends };

    ghost faults = { λ s. s.faults };

    fn read(&mut self, buf: &mut [u8]) -> Result<usize, Failed>
        requires { 0 < length buf.old }
        ensures answer { result ≡ read_answer self.old (length buf.old) }
        ensures bytes { IfOk result (λ n. take n buf.new ≡ take n self.old.left) }
        ensures buffer { IfOk result (λ n. drop n buf.new ≡ drop n buf.old) }
        ensures left { IfOk result (λ n. self.new.left ≡ drop n self.old.left) }
        ensures pieces { OnOk result (self.new.pieces ≡ drop 1 self.old.pieces) }
        ensures same_buffer { OnErr result (buf.new ≡ buf.old) }
        ensures none_lost { OnErr result (self.new.left ≡ self.old.left) }
        ensures same_pieces { OnErr result (self.new.pieces ≡ self.old.pieces) }

        ensures failing { self.new.failing ≡ self.old.failing }
        ensures reads { self.new.reads ≡ next_count self.old.reads }
        ensures faults { self.new.faults ≡
            (if is_ok result then self.old.faults else next_count self.old.faults) }
        ensures cause { OnErr result (Rose self.old.faults self.new.faults) }
        ensures count { NeverFalls self.old.faults self.new.faults }
        ensures last_read { self.new.saw_end ≡ answered_end result }
        ensures ends { self.new.ends ≡ ends_after self.old.ends result }
    {
        self.reads = self.reads.saturating_add(1);
        if self.failing.contains(&self.reads) {
            self.faults = self.faults.saturating_add(1);
            self.saw_end = false;
            return Err(Failed);
        }
        let n = self.next_size(buf.len());
        buf[..n].copy_from_slice(&self.bytes[self.position..self.position + n]);
        self.position += n;
        self.next_piece = self.next_piece.saturating_add(1);
        self.saw_end = n == 0;
        self.ends.note(self.saw_end);
        Ok(n)
    }
}
