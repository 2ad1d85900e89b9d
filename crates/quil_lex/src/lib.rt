//! The tokens of Quil.
//!
//! `tokens` splits a text into segments, one for each `;` and each line end, each with its
//! tokens: a token has its kind, the slice of its source, its line and its column. What it answers
//! is what the lexical grammar of `specs/Token.antt` and `specs/Reading.antt` relates to the text,
//! and nothing else; where no token begins at a byte, it names the first such byte.
//! `tokens_to_bad_byte` also gives the tokens that stand before that byte. `tokens_stand_apart` is the
//! law by which a text that is put together from tokens is read as those tokens, and
//! `lines_are_read_again` says it of whole texts.
#![tactic(auto)]

mod cursor;
mod fault;
mod laws;
mod read;
mod scan;
mod segment;
mod token;

pub use fault::LexFault;
pub use laws::{lexemes_are_tokens, line_feeds_are_in_strings, lines_are_read_again};
pub use read::{each_text_is_read, tokens, tokens_to_bad_byte};
pub use scan::tokens_stand_apart;
pub use segment::{End, Segment, Tokens};
pub use token::{Kind, Mark, Token};

#[cfg(test)]
mod tests;
