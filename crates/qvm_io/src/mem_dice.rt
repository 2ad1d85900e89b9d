ghost use Rattle.std.specs.Prelude.{◌≡◌, ℕ, List, drop, Some, OnErr, is_ok, if◌then◌else◌};
ghost use Rattle.qvm_io.specs.Causes.{next_count, Rose, NeverFalls};
ghost use Rattle.qvm_io.specs.MemDice.{draw_answer};

use crate::errors::Failed;
use crate::outside::Dice;
use std::marker::Model;

/// Dice whose words were chosen before.
#[derive(Drop)]
pub struct MemDice {
    words: Vec<u64>,
    position: usize,
    failing: Vec<u64>,
    draws: u64,
    faults: u64,
}

impl Model for MemDice {
    ghost use Rattle.std.specs.Prelude.{◌≤◌, length, drop};
    ghost use Rattle.qvm_io.specs.MemDice.{DiceState};

    ghost Value = { DiceState };

    ghost view = { λ s. record {
      left = drop s.position s.words.items;
      failing = s.failing.items;
      draws = s.draws;
      faults = s.faults;
    } };

    ghost invariant = { λ s. s.position ≤ length s.words.items };
}

impl MemDice {
    /// Dice that give these words. The draws whose numbers are in `failing` fail, the first draw
    /// being number 1, and so does each draw past the last word.
    pub fn new(words: Vec<u64>, failing: Vec<u64>) -> MemDice
        ensures left { result.left ≡ words.items }
        ensures failing { result.failing ≡ failing.items }
        ensures draws { result.draws ≡ 0 }
        ensures faults { result.faults ≡ 0 }
    {
        MemDice {
            words,
            position: 0,
            failing,
            draws: 0,
            faults: 0,
        }
    }

    /// How many draws there were, up to the end of 64 bits.
    pub fn draws(&self) -> u64
        ensures { result ≡ self.now.draws }
    {
        self.draws
    }

    /// How many draws failed, up to the end of 64 bits.
    pub fn faults(&self) -> u64
        ensures { result ≡ self.now.faults }
    {
        self.faults
    }
}

impl Dice for MemDice {
    ghost words_left = { λ s. Some s.left };

    ghost faults = { λ s. s.faults };

    fn draw(&mut self) -> Result<u64, Failed>
        ensures answer { result ≡ draw_answer self.old }
        ensures left { self.new.left ≡ (if is_ok result then drop 1 self.old.left else self.old.left) }
        ensures failing { self.new.failing ≡ self.old.failing }
        ensures draws { self.new.draws ≡ next_count self.old.draws }
        ensures faults { self.new.faults ≡
            (if is_ok result then self.old.faults else next_count self.old.faults) }
        ensures cause { OnErr result (Rose self.old.faults self.new.faults) }
        ensures count { NeverFalls self.old.faults self.new.faults }
    {
        self.draws = self.draws.saturating_add(1);
        if self.position == self.words.len() || self.failing.contains(&self.draws) {
            self.faults = self.faults.saturating_add(1);
            return Err(Failed);
        }
        let word = self.words[self.position];
        self.position += 1;
        Ok(word)
    }
}
