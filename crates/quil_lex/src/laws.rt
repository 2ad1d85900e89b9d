//! Laws of readings: what is read is tokens, and what is written as tokens is read again.

ghost use Rattle.std.specs.Prelude.{◌≡◌, ◌≢◌, ℕ, false, List};
ghost use Rattle.std.specs.List.{AllByRecursion};
ghost use Rattle.quil_lex.specs.declared.token.Kind.{Kind};
ghost use Rattle.quil_lex.specs.declared.token.Kind.TheVariants.{Str};
ghost use Rattle.quil_lex.specs.Token.{IsToken};
ghost use Rattle.quil_lex.specs.Reading.{Span, IsReading};
ghost use Rattle.quil_lex.specs.Written.{has_feed, AreTokens, WrittenLine, lines_bytes, IsWritten, lines_spans};

/// However a text is read, each lexeme is a token of its kind, without a line feed.
#[tactic(auto, using(crate::proofs::ReadTokens::reading_tokens))]
pub fn lexemes_are_tokens()
    ensures { (text : List ℕ) (spans : List Span) → IsReading text spans → AllByRecursion (λ s. AreTokens s.lexemes) spans }
{}

/// Only a string can have a line feed in it.
#[tactic(auto, using(crate::proofs::TokenBytes::other_feed))]
pub fn line_feeds_are_in_strings()
    ensures { (k : Kind) (t : List ℕ) → IsToken k t → k ≢ Str → has_feed t ≡ false }
{}

/// Lines that are written as tokens, each told from the next, are read as those tokens, line by line.
#[tactic(auto, using(crate::proofs::Rereading::lines_again))]
pub fn lines_are_read_again()
    ensures { (lines : List WrittenLine) → AllByRecursion IsWritten lines → IsReading (lines_bytes lines) (lines_spans lines) }
{}
