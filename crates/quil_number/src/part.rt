//! A fraction below 1.

ghost use Rattle.std.specs.Prelude.{◌≤◌, ◌<◌, ◌^◌};
ghost use Rattle.std.specs.Int.{IsGcd};

/// The fraction p/q from 0 to below 1, in lowest terms.
#[derive(Clone, Copy)]
pub(crate) struct Part {
    pub(crate) p: u128,
    pub(crate) q: u128,
    ghost lowest: { IsGcd p q 1 },
    ghost below_one: { p < q },
    ghost narrow: { q ≤ 2 ^ 62 },
}
