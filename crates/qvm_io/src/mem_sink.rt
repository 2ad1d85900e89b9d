ghost use Rattle.std.specs.Prelude.{◌≡◌, ℕ, ◌+◌, ◌-◌, ◌^◌, ◌<◌, ◌≤◌, List, [], ◌++◌, length, take, Some, IfOk, OnErr, IsOk, is_ok, if◌then◌else◌};
ghost use Rattle.qvm_io.specs.Causes.{next_count, Rose, NeverFalls};
ghost use Rattle.qvm_io.specs.MemSink.{write_size};

use crate::errors::{Failed, OutOfMemory};
use crate::outside::Sink;
use std::alloc::Global;
use std::marker::Model;

/// A sink that keeps what it takes.
#[derive(Drop)]
pub struct MemSink {
    taken: Vec<u8>,
    limit: usize,
    faults: u64,
}

impl Model for MemSink {
    ghost use Rattle.std.specs.Prelude.{◌≤◌, length, vec_capacity};
    ghost use Rattle.qvm_io.specs.MemSink.{SinkState};

    ghost Value = { SinkState };

    ghost view = { λ s. record {
      taken = s.taken.items;
      limit = s.limit;
      reserved = vec_capacity s.taken;
      faults = s.faults;
    } };

    ghost invariant = { λ s. length s.taken.items ≤ s.limit };
}

impl MemSink {
    /// A sink that takes all that memory holds. A write for which there is no memory fails and is
    /// counted.
    pub fn new(alloc: Global) -> MemSink
        ensures taken { result.taken ≡ [] }
        ensures limit { result.limit ≡ 2 ^ 64 - 1 }
        ensures faults { result.faults ≡ 0 }
    {
        MemSink {
            taken: Vec::new(alloc),
            limit: usize::MAX,
            faults: 0,
        }
    }

    /// A sink that takes `limit` bytes in all, for which it has memory from the start: of a piece it
    /// takes what still fits, and where nothing fits the write fails and is counted.
    pub fn with_limit(alloc: Global, limit: usize) -> Result<MemSink, OutOfMemory>
        ensures taken { IfOk result (λ sink. sink.taken ≡ []) }
        ensures limit { IfOk result (λ sink. sink.limit ≡ limit) }
        ensures reserved { IfOk result (λ sink. limit ≤ sink.reserved) }
        ensures faults { IfOk result (λ sink. sink.faults ≡ 0) }
    {
        Ok(MemSink {
            taken: Vec::with_capacity(alloc, limit)?,
            limit,
            faults: 0,
        })
    }

    /// The bytes taken so far.
    pub fn taken(&self) -> &[u8]
        ensures { result.now ≡ self.now.taken }
    {
        self.taken.as_slice()
    }

    /// How many writes failed, up to the end of 64 bits.
    pub fn faults(&self) -> u64
        ensures { result ≡ self.now.faults }
    {
        self.faults
    }
}

impl Sink for MemSink {
    ghost bytes_taken = { λ s. Some s.taken };

    ghost faults = { λ s. s.faults };

    // Only want of memory fails a write of which something fits, and never within what is reserved.
    fn write(&mut self, piece: &[u8]) -> Result<usize, Failed>
        requires { 0 < length piece.now }
        ensures size { IfOk result (λ n. n ≡ write_size self.old (length piece.now)) }
        ensures some { IfOk result (λ n. 0 < n) }
        ensures succeeds { 0 < write_size self.old (length piece.now) →
            length self.old.taken + write_size self.old (length piece.now) ≤ self.old.reserved →
            IsOk result }
        ensures bytes { IfOk result (λ n. self.new.taken ≡ self.old.taken ++ take n piece.now) }
        ensures none_taken { OnErr result (self.new.taken ≡ self.old.taken) }

        ensures limit { self.new.limit ≡ self.old.limit }
        ensures reserved { self.old.reserved ≤ self.new.reserved }
        ensures faults { self.new.faults ≡
            (if is_ok result then self.old.faults else next_count self.old.faults) }
        ensures cause { OnErr result (Rose self.old.faults self.new.faults) }
        ensures count { NeverFalls self.old.faults self.new.faults }
    {
        let n = piece.len().min(self.limit - self.taken.len());
        if n == 0 || self.taken.extend_from_slice(&piece[..n]).is_err() {
            self.faults = self.faults.saturating_add(1);
            return Err(Failed);
        }
        Ok(n)
    }
}
