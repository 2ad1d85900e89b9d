//! Grammars as data, and the one reading of a text.
//!
//! A grammar is a record: kinds of tokens, classes that accept kinds, what an accepted token yields, and a body of
//! shapes for each rule. `specs/` says which tokens are a whole (and what reading them makes), which are a front, and
//! when tokens are refused at a place or too large there. A condition that is computed from tables over the kinds of
//! tokens says that one token decides each choice. `laws` has the theorem, over every grammar that meets the
//! condition: any tokens have exactly one verdict, and reading from left to right gives it. `example` has a reader
//! written by hand and proved by the laws of `proofs/Reading.antt`.
#![tactic(auto)]

pub mod example;
pub mod laws;
