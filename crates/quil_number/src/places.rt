//! The digits behind a point, as a fraction.

ghost use Rattle.std.specs.Prelude.{◌≡◌, ◌≤◌, ◌<◌, ◌^◌, List, ℕ, true, [], ◌++◌, ◌∷◌};
ghost use Rattle.std.specs.List.{list_all};
ghost use Rattle.std.specs.Int.{IsGcd};
ghost use Rattle.std.specs.Char.{is_ascii_digit};
ghost use Rattle.quil_number.specs.Places.{Are, AreTenths};

use crate::divisor::gcd;
use crate::fraction::BOUND;
use crate::part::Part;

/// What the digits behind a point write.
#[derive(Clone, Copy)]
pub(crate) enum Places {
    Exact(Part),
    /// The q of the value is above 2^62, whatever digits stand in front.
    TooFine,
}

impl Part {
    // This part with a digit in front.
    fn behind(self, digit: u8) -> Places
        requires { is_ascii_digit digit ≡ true }
        ensures { (ds : List ℕ) → AreTenths ds self → Are (digit ∷ ds) result }
    {
        let p = u128::from(digit - b'0') * self.q + self.p;
        let q = 10 * self.q;
        let divisor = gcd(p, q);
        if q / divisor <= BOUND {
            Places::Exact(Part {
                p: p / divisor,
                q: q / divisor,
            })
        } else {
            Places::TooFine
        }
    }
}

impl Places {
    /// No digit.
    pub(crate) fn none() -> Places
        ensures { Are [] result }
    {
        Places::Exact(Part { p: 0, q: 1 })
    }

    /// These places with digits in front.
    pub(crate) fn behind(self, digits: &[u8]) -> Places
        requires { list_all is_ascii_digit digits.now ≡ true }
        ensures { (ds : List ℕ) → Are ds self → Are (digits.now ++ ds) result }
    {
        let mut places = self;
        for i in (0..digits.len()).rev() {
            places = places.behind_one(digits[i]);
        }
        places
    }

    fn behind_one(self, digit: u8) -> Places
        requires { is_ascii_digit digit ≡ true }
        ensures { (ds : List ℕ) → Are ds self → Are (digit ∷ ds) result }
    {
        match self {
            Places::Exact(part) => part.behind(digit),
            Places::TooFine => Places::TooFine,
        }
    }
}
