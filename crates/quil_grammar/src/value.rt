//! Values of whole numbers.

ghost use Rattle.std.specs.Prelude.{◌^◌, ◌≡◌, ◌≤◌, IfSome, IfNone};
ghost use Rattle.quil_grammar.specs.Grammar.{value_behind};

/// The number that decimal digits write, where it is below 2^64.
#[tactic(auto, using(crate::proofs::Values::value_grows))]
pub fn value_of(mut digits: &[u8]) -> Option<u64>
    ensures found { IfSome result (λ n. n ≡ value_behind 0 digits.entry.now) }
    ensures large { IfNone result (2 ^ 64 ≤ value_behind 0 digits.entry.now) }
{
    let mut value = 0u64;
    while let [digit, rest @ ..] = digits {
        value = value
            .checked_mul(10)?
            .checked_add(u64::from(digit.saturating_sub(b'0')))?;
        digits = rest;
    }
    Some(value)
}
