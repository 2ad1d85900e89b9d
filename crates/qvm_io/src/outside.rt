ghost use Rattle.std.specs.Prelude.{◌≡◌, ℕ, ◌<◌, ◌≤◌, List, [], ◌∷◌, length, take, Bool, Option, IfOk, OnOk, OnErr};
ghost use Rattle.std.specs.Io.KnownBytes.{Appends, Consumes, IsAtEnd, Keeps};
ghost use Rattle.qvm_io.specs.Causes.{Rose, Stays, NeverFalls};
ghost use Rattle.qvm_io.specs.Transfer.{answered_end, ends_after};

use crate::errors::Failed;

/// What gives bytes.
pub trait Source {
    /// The bytes that are left, where the source tells them.
    ghost bytes_left: { Self → Option (List ℕ) };

    /// Whether the last read answered 0. A new source's didn't.
    ghost saw_end: { Self → Bool };

    /// How often a read has answered 0, without bound. A new source's hasn't.
    ghost ends: { Self → ℕ };

    /// How many reads have failed, up to the end of 64 bits.
    ghost faults: { Self → ℕ };

    /// Puts the next bytes at the front of the buffer and answers how many, where 0 is the end of
    /// the input. The rest of the buffer may hold anything. After a fault no byte is lost.
    fn read(&mut self, buf: &mut [u8]) -> Result<usize, Failed>
        requires { 0 < length buf.old }
        ensures within { IfOk result (λ n. n ≤ length buf.old) }
        ensures bytes { IfOk result (λ n.
            Consumes (bytes_left self.old) (bytes_left self.new) (take n buf.new)) }
        ensures end { IfOk result (λ n. n ≡ 0 → IsAtEnd (bytes_left self.new)) }
        ensures last_read { saw_end self.new ≡ answered_end result }
        ensures ends { ends self.new ≡ ends_after (ends self.old) result }

        ensures none_lost { OnErr result (Keeps (bytes_left self.old) (bytes_left self.new)) }
        ensures steady { OnOk result (Stays (faults self.old) (faults self.new)) }
        ensures cause { OnErr result (Rose (faults self.old) (faults self.new)) }
        ensures count { NeverFalls (faults self.old) (faults self.new) };
}

/// What takes bytes.
pub trait Sink {
    /// The bytes taken so far, where the sink tells them.
    ghost bytes_taken: { Self → Option (List ℕ) };

    /// How many writes have failed, up to the end of 64 bits.
    ghost faults: { Self → ℕ };

    /// Takes the first bytes of a piece, at least one, and answers how many. A failed write takes
    /// none.
    fn write(&mut self, piece: &[u8]) -> Result<usize, Failed>
        requires { 0 < length piece.now }
        ensures some { IfOk result (λ n. 0 < n) }
        ensures within { IfOk result (λ n. n ≤ length piece.now) }
        ensures bytes { IfOk result (λ n.
            Appends (bytes_taken self.old) (bytes_taken self.new) (take n piece.now)) }

        ensures none_taken { OnErr result (Keeps (bytes_taken self.old) (bytes_taken self.new)) }
        ensures steady { OnOk result (Stays (faults self.old) (faults self.new)) }
        ensures cause { OnErr result (Rose (faults self.old) (faults self.new)) }
        ensures count { NeverFalls (faults self.old) (faults self.new) };
}

/// What gives random words.
pub trait Dice {
    /// The words that are left, where the dice tell them.
    ghost words_left: { Self → Option (List ℕ) };

    /// How many draws have failed, up to the end of 64 bits.
    ghost faults: { Self → ℕ };

    /// The next word. A failed draw loses none.
    fn draw(&mut self) -> Result<u64, Failed>
        ensures word { IfOk result (λ word.
            Consumes (words_left self.old) (words_left self.new) (word ∷ [])) }

        ensures none_lost { OnErr result (Keeps (words_left self.old) (words_left self.new)) }
        ensures steady { OnOk result (Stays (faults self.old) (faults self.new)) }
        ensures cause { OnErr result (Rose (faults self.old) (faults self.new)) }
        ensures count { NeverFalls (faults self.old) (faults self.new) };
}
