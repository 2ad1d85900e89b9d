// A number without bound that only proofs read. It takes no memory, and its functions do nothing at run time.
ghost use Rattle.std.specs.Prelude.{◌≡◌, ℕ, ◌+◌, if◌then◌else◌};
ghost use Rattle.std.specs.Borrow.{ftrue};

use std::marker::Model;

/// How often something has happened.
#[derive(Drop)]
pub(crate) struct Tally {
    ghost count: { ℕ },
}

impl Model for Tally {
    ghost also_owns = { λ _. ftrue };
}

impl Tally {
    /// It hasn't happened yet.
    pub(crate) fn new() -> Tally
        ensures { result.count ≡ 0 }
    {
        Tally {}
    }

    /// Counts one more time, where it happened.
    pub(crate) fn note(&mut self, happened: bool)
        ensures { self.new.count ≡ (if happened then self.old.count + 1 else self.old.count) }
    {
        if happened {
            *self = self.next();
        }
    }

    fn next(&self) -> Tally
        ensures { result.count ≡ self.now.count + 1 }
    {
        Tally {}
    }
}
