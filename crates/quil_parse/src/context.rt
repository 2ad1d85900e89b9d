//! The names that a definition gives to what stands in its body.

ghost use Rattle.std.specs.Prelude.{◌≡◌, [], IfOk};
ghost use Rattle.quil_lex.specs.Reading.{lexeme_of};
ghost use Rattle.quil_tree.specs.Names.{distinct, texts_of};
ghost use Rattle.quil_grammar.specs.Token.{sort_in, token_in, no_context};
ghost use Rattle.quil_parse.specs.Steps.{names_in, names_at_first};

use quil_grammar::{Class, Sort, Token};
use quil_lex::Token as Lexeme;
use quil_tree::{Name, NameSet, Place};
use std::alloc::{AllocError, Global};

/// The parameters of a definition, and the formal qubits of a circuit, each once.
#[derive(Drop)]
pub(crate) struct Context {
    parameters: NameSet,
    qubits: NameSet,
}

impl Context {
    /// No names.
    pub(crate) fn none(alloc: Global) -> Context
        ensures { names_in result ≡ no_context }
    {
        Context {
            parameters: NameSet::new(alloc),
            qubits: NameSet::new(alloc),
        }
    }

    /// These names, which may stand in the lists more than once.
    pub(crate) fn of(
        alloc: Global,
        parameters: &[Name],
        qubits: &[Name],
    ) -> Result<Context, AllocError>
        ensures { IfOk result (λ c. names_in c ≡ record { parameters = distinct (texts_of parameters.now); qubits = distinct (texts_of qubits.now) }) }
    {
        let parameters = NameSet::of(alloc, parameters)?;
        let qubits = NameSet::of(alloc, qubits)?;
        Ok(Context { parameters, qubits })
    }

    // The sort of a token there, the first of a line or another.
    fn sort_in(&self, sort: Sort, text: &[u8], is_first: bool) -> Sort
        ensures { result ≡ sort_in (names_at_first is_first (names_in self.now)) sort text.now }
    {
        if sort.is(Sort::Parameter) {
            if self.parameters.contains(text) {
                Sort::Parameter
            } else {
                Sort::Unknown
            }
        } else if Class::Named.accepts(sort) && !is_first && self.qubits.contains(text) {
            Sort::Formal
        } else {
            sort
        }
    }

    /// A token there, the first of a line or another. No qubit begins a line.
    pub(crate) fn token<'a>(&self, lexeme: &Lexeme<'a>, is_first: bool) -> Token<'a>
        ensures { result ≡ token_in (names_at_first is_first (names_in self.now)) (lexeme_of lexeme.now) }
    {
        let sort = Sort::of(lexeme.kind, lexeme.text);
        let place = Place {
            line: lexeme.line,
            column: lexeme.column,
        };
        let number = if sort.is(Sort::Parameter) {
            self.parameters.number_of(lexeme.text)
        } else {
            0
        };
        Token::new(
            self.sort_in(sort, lexeme.text, is_first),
            lexeme.text,
            place,
            number,
        )
    }
}
