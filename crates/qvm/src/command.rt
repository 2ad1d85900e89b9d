//! The words behind the program's name.

ghost use Rattle.std.specs.Prelude.{◌≡◌, ◌<◌, ◌≤◌, ◌^◌, ◌∷◌, length, map, true, string_bytes, MatchOption, option_map, option_and_then, IfSome};
ghost use Rattle.std.specs.List.{list_all, range_with_len};
ghost use Rattle.std.specs.Char.{is_digit, digit_value};
ghost use Rattle.std.specs.Str.Parse.{digits_value};
ghost use Rattle.qvm.specs.Command.{byte_of_digits, seed_of, limit_of, cut, choices_of, run_options, command_of};
ghost use Rattle.qvm.specs.Given.{with_option};

const SEED_DIGITS: usize = 64;

const LIMIT_DIGITS: usize = 20;

const MOST_STEPS: u64 = 4_294_967_296;

const DEFAULT_SEED: [u8; 32] = [0; 32];

const DEFAULT_LIMIT: u64 = 1_000_000;

/// What the words ask for.
#[derive(Clone, Copy, Debug, PartialEq, Eq)]
pub(crate) enum Command {
    /// Read a program, run it, and write its memory at the end.
    Run(RunOptions),
}

/// The options of a run.
#[derive(Clone, Copy, Debug, PartialEq, Eq)]
pub(crate) struct RunOptions {
    /// The seed of the run's words.
    pub seed: [u8; 32],
    /// The most steps, from 1 to 2^32.
    pub limit: u64,
}

// The options of a run that have been read.
#[derive(Clone, Copy)]
struct Given {
    seed: Option<[u8; 32]>,
    limit: Option<u64>,
}

// The number that a hexadecimal digit is.
fn hex_digit(byte: u8) -> u8
    requires { digit_value byte < 16 }
    ensures { result ≡ digit_value byte }
{
    match byte {
        b'0'..=b'9' => byte - b'0',
        b'A'..=b'F' => byte - b'A' + 10,
        _ => byte - b'a' + 10,
    }
}

fn are_hex(digits: &[u8]) -> bool
    ensures { result ≡ list_all (λ c. is_digit c 16) digits.now }
{
    digits.iter().all(|digit| char::from(*digit).is_digit(16))
}

fn are_decimal(digits: &[u8]) -> bool
    ensures { result ≡ list_all (λ c. is_digit c 10) digits.now }
{
    digits.iter().all(|digit| char::from(*digit).is_digit(10))
}

// The bytes that hexadecimal digits are, the upper half of each first.
#[tactic(auto, using(crate::proofs::Values::digit_at))]
fn seed_bytes(digits: &[u8]) -> [u8; 32]
    requires count { length digits.now ≡ 64 }
    requires hex { list_all (λ c. is_digit c 16) digits.now ≡ true }
    ensures { result ≡ map (byte_of_digits digits.now) (range_with_len 0 32) }
{
    let mut seed = [0; 32];
    for i in 0..32 {
        seed[i] = hex_digit(digits[2 * i]) * 16 + hex_digit(digits[2 * i + 1]);
    }
    seed
}

// The seed that 64 hexadecimal digits are.
#[tactic(auto, using(crate::proofs::Values::a_seed, crate::proofs::Values::no_seed_long, crate::proofs::Values::no_seed_digits))]
fn seed_of(text: &str) -> Option<[u8; 32]>
    ensures { result ≡ seed_of text.now }
{
    let digits = text.as_bytes();
    if digits.len() != SEED_DIGITS {
        return None;
    }
    if !are_hex(digits) {
        return None;
    }
    Some(seed_bytes(digits))
}

// The number that decimal digits are.
fn number_of(digits: &str) -> Option<u64>
    requires { list_all (λ c. is_digit c 10) digits.now ≡ true }
    ensures { MatchOption result ((1 ≤ digits_value 10 digits.now) → (digits_value 10 digits.now ≤ 2 ^ 32) → ⊥) (λ n. n ≡ digits_value 10 digits.now) }
{
    digits.parse::<u64>().ok()
}

// The limit that at most 20 decimal digits are.
#[tactic(auto, using(crate::proofs::Values::a_limit, crate::proofs::Values::no_limit_long, crate::proofs::Values::no_limit_digits, crate::proofs::Values::no_limit_value))]
fn limit_of(text: &str) -> Option<u64>
    ensures { result ≡ limit_of text.now }
{
    if text.len() > LIMIT_DIGITS {
        return None;
    }
    if !are_decimal(text.as_bytes()) {
        return None;
    }
    let limit = number_of(text)?;
    if limit < 1 || MOST_STEPS < limit {
        return None;
    }
    Some(limit)
}

impl Given {
    // With one more option; nothing where its name is unknown or was given before, or its value is wrong.
    fn with(self, name: &str, value: &str) -> Option<Given>
        ensures { result ≡ with_option self name.now value.now }
    {
        if name == "--seed" {
            if self.seed.is_some() {
                return None;
            }
            let seed = seed_of(value)?;
            Some(Given {
                seed: Some(seed),
                limit: self.limit,
            })
        } else if name == "--max-steps" {
            if self.limit.is_some() {
                return None;
            }
            let limit = limit_of(value)?;
            Some(Given {
                seed: self.seed,
                limit: Some(limit),
            })
        } else {
            None
        }
    }
}

// A word cut at its first `=`, where it has one.
fn cut(word: &str) -> Option<(&str, &str)>
    ensures { MatchOption result (cut word.now ≡ None) (λ c. cut word.now ≡ Some (record { name = c.0.now; value = c.1.now })) }
{
    word.split_once('=')
}

#[tactic(auto, using(crate::proofs::Options::choices_joined, crate::proofs::Options::choices_one))]
// The first option of some words, its name and its value, and the words behind it.
fn first_choice<'a>(word: &'a str, words: &'a [String]) -> Option<(&'a str, &'a str, &'a [String])>
    ensures cases { MatchOption result (choices_of (word.now ∷ map string_bytes words.now) ≡ None)
        (λ c. choices_of (word.now ∷ map string_bytes words.now) ≡ option_map (λ cs. record { name = c.0.now; value = c.1.now } ∷ cs) (choices_of (map string_bytes c.2.now))) }
    ensures fewer { IfSome result (λ c. length c.2.now ≤ length words.now) }
{
    if let Some((name, value)) = cut(word) {
        return Some((name, value, words));
    }
    let (value, behind) = words.split_first()?;
    Some((word, value.as_str(), behind))
}

fn run_options(words: &[String]) -> Option<RunOptions>
    ensures { result ≡ option_and_then run_options (choices_of (map string_bytes words.now)) }
{
    let mut given = Given {
        seed: None,
        limit: None,
    };
    let mut left = words;
    while let Some((word, behind)) = left.split_first() {
        let (name, value, rest) = first_choice(word.as_str(), behind)?;
        given = given.with(name, value)?;
        left = rest;
    }
    Some(RunOptions {
        seed: given.seed.unwrap_or(DEFAULT_SEED),
        limit: given.limit.unwrap_or(DEFAULT_LIMIT),
    })
}

/// The command that words are: `run` and its options, or none.
pub(crate) fn command_of(words: &[String]) -> Option<Command>
    ensures { result ≡ command_of (map string_bytes words.now) }
{
    let (word, options) = words.split_first()?;
    if word.as_str() == "run" {
        let options = run_options(options)?;
        return Some(Command::Run(options));
    }
    None
}
