ghost use Rattle.std.specs.Prelude.{◌≡◌, None};

use crate::errors::Failed;
use crate::outside::Dice;
use std::random::RandomSource;

/// Random words of the system. They are told nowhere.
#[derive(Drop)]
pub struct SystemDice<R> {
    random: R,
    faults: u64,
}

impl<R: RandomSource> SystemDice<R> {
    /// Dice that draw from the system.
    pub fn new(random: R) -> SystemDice<R>
        ensures { ⟦<SystemDice<R> as Dice>⟧.faults result ≡ 0 }
    {
        SystemDice { random, faults: 0 }
    }
}

impl<R: RandomSource> Dice for SystemDice<R> {
    ghost words_left = { λ _. None };

    ghost faults = { λ s. s.faults };

    fn draw(&mut self) -> Result<u64, Failed> {
        let mut bytes = [0; 8];
        if self.random.fill_bytes(&mut bytes).is_err() {
            self.faults = self.faults.saturating_add(1);
            return Err(Failed);
        }
        Ok(u64::from_le_bytes(bytes))
    }
}
