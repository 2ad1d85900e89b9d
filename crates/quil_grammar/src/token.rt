//! The tokens of a text as the grammar reads them.

ghost use Rattle.std.specs.Prelude.{◌≡◌};
ghost use Rattle.quil_grammar.specs.Token.{Token};

use crate::sort::Sort;
use quil_tree::Place;
use std::marker::Model;

/// A token: its sort, its bytes, its place, and of a parameter its number.
#[derive(Drop)]
pub struct Token<'a> {
    sort: Sort,
    text: &'a [u8],
    place: Place,
    number: usize,
}

impl<'a> Model for Token<'a> {
    ghost use Rattle.quil_grammar.specs.Token.{Token};

    ghost Value = { Token };

    ghost view = { λ t. record { sort = t.sort; text = t.text.now; place = t.place; number = t.number } };
}

impl<'a> Token<'a> {
    /// A token of these parts.
    pub fn new(sort: Sort, text: &'a [u8], place: Place, number: usize) -> Token<'a>
        ensures { result ≡ record { sort = sort; text = text.now; place = place; number = number } }
    {
        Token {
            sort,
            text,
            place,
            number,
        }
    }

    /// Its sort.
    pub fn sort(&self) -> Sort
        ensures { result ≡ self.now.sort }
    {
        self.sort
    }

    /// Its bytes.
    pub fn text(&self) -> &'a [u8]
        ensures { result.now ≡ self.now.text }
    {
        self.text
    }

    /// Its place.
    pub fn place(&self) -> Place
        ensures { result ≡ self.now.place }
    {
        self.place
    }

    /// The number of a parameter.
    pub fn number(&self) -> usize
        ensures { result ≡ self.now.number }
    {
        self.number
    }
}
