//! The parts of statements, read from the tokens.

ghost use Rattle.std.specs.Prelude.{◌≡◌, ◌<◌, ◌≤◌, [], ◌∷◌, IfOk, IfErr, IfSome, IfNone, OnOk, IsTrue, IsFalse, drop, length};
ghost use Rattle.quil_shape.specs.Shape.Shape.{One};
ghost use Rattle.quil_grammar.specs.Grammar.{quil, accepts};
ghost use Rattle.quil_grammar.specs.Grammar.Piece.{Says, Names, Takes, Acts, Counts, Keeps};
ghost use Rattle.quil_grammar.specs.Frames.{is_next, StopsFor};
ghost use Rattle.quil_grammar.specs.Parts.Part.{Made, Value};
ghost use Rattle.quil_grammar.specs.Statements.{address, maybe, operand};
ghost use Rattle.quil_statement.specs.Meaning.{cell};
ghost use Rattle.quil_statement.specs.Says.{is_word, is_silent, is_naming, is_counting, is_keeping, Reads, IsOperand, maybe_cell, maybe_qubit};

use quil_grammar::{Class, Reader, Sort, Stop, Token, value_of};
use quil_tree::{Name, Operand, Place, Qubit, Reference, Text, Whole};
use std::alloc::Global;

/// A reader of the tokens of a line.
#[derive(Drop)]
pub(crate) struct Parser<'a, 'b> {
    pub(crate) tokens: Reader<'a, 'b>,
}

impl<'a, 'b> Parser<'a, 'b> {
    // A parser of these tokens.
    pub(crate) fn new(alloc: Global, tokens: &'b [Token<'a>]) -> Parser<'a, 'b>
        ensures { result.tokens.rest.now ≡ tokens.now }
    {
        Parser {
            tokens: Reader::new(alloc, tokens),
        }
    }

    // The next token may stand in the place.
    #[tactic(auto, unfolding(quil_grammar::specs::Grammar::quil))]
    pub(crate) fn sees(&self, class: Class) -> bool
        ensures { result ≡ is_next class self.now.tokens.rest.now }
    {
        match self.tokens.rest.first() {
            Some(token) => class.accepts(token.sort()),
            None => false,
        }
    }

    // Takes the next token, where it may stand in the place.
    #[tactic(auto, unfolding(quil_grammar::specs::Grammar::quil), using(crate::proofs::Tokens::no_token))]
    fn take(&mut self, class: Class) -> Result<&'b Token<'a>, Stop>
        ensures ok { IfOk result (λ token. (self.old.tokens.rest.now ≡ token.now ∷ self.new.tokens.rest.now) × IsTrue (accepts class token.now.sort)) }
        ensures err { IfErr result (λ e. StopsFor e (One class) self.old.tokens.rest.now self.new.tokens.rest.now) }
    {
        let Some(token) = self.tokens.take(class) else {
            return Err(Stop::Unexpected);
        };
        Ok(token)
    }

    // Reads a word.
    #[tactic(auto, using(crate::proofs::Tokens::word_read))]
    pub(crate) fn word(&mut self, class: Class) -> Result<(Place, Sort), Stop>
        requires { IsTrue (is_word class) }
        ensures ok { IfOk result (λ w. Reads (One class) self.old.tokens.rest.now self.new.tokens.rest.now (Made (Says w.0 class w.1) ∷ [])) }
        ensures err { IfErr result (λ e. StopsFor e (One class) self.old.tokens.rest.now self.new.tokens.rest.now) }
        ensures shorter { OnOk result (length self.new.tokens.rest.now < length self.old.tokens.rest.now) }
    {
        let token = self.take(class)?;
        Ok((token.place(), token.sort()))
    }

    // Reads a mark, or a word that means nothing of its own.
    #[tactic(auto, using(crate::proofs::Tokens::silent_read))]
    pub(crate) fn mark(&mut self, class: Class) -> Result<(), Stop>
        requires { IsTrue (is_silent class) }
        ensures ok { OnOk result (Reads (One class) self.old.tokens.rest.now self.new.tokens.rest.now []) }
        ensures err { IfErr result (λ e. StopsFor e (One class) self.old.tokens.rest.now self.new.tokens.rest.now) }
        ensures shorter { OnOk result (length self.new.tokens.rest.now < length self.old.tokens.rest.now) }
    {
        let _ = self.take(class)?;
        Ok(())
    }

    // Reads a name.
    #[tactic(auto, using(crate::proofs::Tokens::name_read))]
    pub(crate) fn name(&mut self, alloc: Global, class: Class) -> Result<Name, Stop>
        requires { IsTrue (is_naming class) }
        ensures ok { IfOk result (λ n. Reads (One class) self.old.tokens.rest.now self.new.tokens.rest.now (Made (Names n) ∷ [])) }
        ensures err { IfErr result (λ e. StopsFor e (One class) self.old.tokens.rest.now self.new.tokens.rest.now) }
        ensures shorter { OnOk result (length self.new.tokens.rest.now < length self.old.tokens.rest.now) }
    {
        let token = self.take(class)?;
        let text = Text::new(alloc, token.text())?;
        Ok(Name {
            place: token.place(),
            text,
        })
    }

    // Reads the name of a parameter that a definition takes.
    #[tactic(auto, using(crate::proofs::Tokens::formal_read))]
    pub(crate) fn formal(&mut self, alloc: Global) -> Result<Name, Stop>
        ensures ok { IfOk result (λ n. Reads (One Class.TakenParameter) self.old.tokens.rest.now self.new.tokens.rest.now (Made (Takes n) ∷ [])) }
        ensures err { IfErr result (λ e. StopsFor e (One Class.TakenParameter) self.old.tokens.rest.now self.new.tokens.rest.now) }
        ensures shorter { OnOk result (length self.new.tokens.rest.now < length self.old.tokens.rest.now) }
    {
        let token = self.take(Class::TakenParameter)?;
        let text = Text::new(alloc, token.text())?;
        Ok(Name {
            place: token.place(),
            text,
        })
    }

    // Reads a token that is kept as it was written.
    #[tactic(auto, using(crate::proofs::Tokens::kept_read))]
    pub(crate) fn kept(&mut self, alloc: Global, class: Class) -> Result<Text, Stop>
        requires { IsTrue (is_keeping class) }
        ensures ok { IfOk result (λ x. Reads (One class) self.old.tokens.rest.now self.new.tokens.rest.now (Made (Keeps x) ∷ [])) }
        ensures err { IfErr result (λ e. StopsFor e (One class) self.old.tokens.rest.now self.new.tokens.rest.now) }
        ensures shorter { OnOk result (length self.new.tokens.rest.now < length self.old.tokens.rest.now) }
    {
        let token = self.take(class)?;
        let text = Text::new(alloc, token.text())?;
        Ok(text)
    }

    // Reads a number below 2^64.
    #[tactic(auto, using(crate::proofs::Tokens::no_token, crate::proofs::Tokens::count_read))]
    pub(crate) fn count(&mut self, alloc: Global, class: Class) -> Result<Whole, Stop>
        requires { IsTrue (is_counting class) }
        ensures ok { IfOk result (λ n. Reads (One class) self.old.tokens.rest.now self.new.tokens.rest.now (Made (Counts n) ∷ [])) }
        ensures err { IfErr result (λ e. StopsFor e (One class) self.old.tokens.rest.now self.new.tokens.rest.now) }
        ensures shorter { OnOk result (length self.new.tokens.rest.now < length self.old.tokens.rest.now) }
    {
        let Some(token) = self.tokens.next(class) else {
            return Err(Stop::Unexpected);
        };
        let Some(value) = value_of(token.text()) else {
            return Err(Stop::TooLarge);
        };
        self.tokens.skip();
        let digits = Text::new(alloc, token.text())?;
        Ok(Whole { digits, value })
    }

    // Reads a qubit.
    #[tactic(auto, using(crate::proofs::Tokens::no_token, crate::proofs::Tokens::formal_qubit_read, crate::proofs::Tokens::index_qubit_read))]
    pub(crate) fn qubit(&mut self, alloc: Global) -> Result<Qubit, Stop>
        ensures ok { IfOk result (λ q. Reads (One Class.Qubit) self.old.tokens.rest.now self.new.tokens.rest.now (Made (Acts q) ∷ [])) }
        ensures err { IfErr result (λ e. StopsFor e (One Class.Qubit) self.old.tokens.rest.now self.new.tokens.rest.now) }
        ensures shorter { OnOk result (length self.new.tokens.rest.now < length self.old.tokens.rest.now) }
    {
        let Some(token) = self.tokens.next(Class::Qubit) else {
            return Err(Stop::Unexpected);
        };
        if token.sort().is(Sort::Formal) {
            self.tokens.skip();
            let text = Text::new(alloc, token.text())?;
            return Ok(Qubit::Formal(Name {
                place: token.place(),
                text,
            }));
        }
        let Some(value) = value_of(token.text()) else {
            return Err(Stop::TooLarge);
        };
        if value > 65_535 {
            return Err(Stop::TooLarge);
        }
        self.tokens.skip();
        let digits = Text::new(alloc, token.text())?;
        Ok(Qubit::Index(token.place(), Whole { digits, value }))
    }

    // Reads a memory reference.
    pub(crate) fn address(&mut self, alloc: Global) -> Result<Reference, Stop>
        ensures ok { IfOk result (λ a. Reads address self.old.tokens.rest.now self.new.tokens.rest.now (cell a ∷ [])) }
        ensures err { IfErr result (λ e. StopsFor e address self.old.tokens.rest.now self.new.tokens.rest.now) }
    {
        self.tokens.reference(alloc)
    }

    // Reads the second operand of an instruction.
    #[tactic(auto, using(crate::proofs::Operands::reference_read, crate::proofs::Operands::value_read, crate::proofs::Operands::reference_stops, crate::proofs::Operands::value_stops))]
    pub(crate) fn operand(&mut self, alloc: Global) -> Result<Operand, Stop>
        ensures ok { IfOk result (λ o. IsOperand self.old.tokens.rest.now self.new.tokens.rest.now o) }
        ensures err { IfErr result (λ e. StopsFor e operand self.old.tokens.rest.now self.new.tokens.rest.now) }
    {
        if self.sees(Class::Region(true)) {
            let found = self.address(alloc)?;
            return Ok(Operand::Reference(found));
        }
        self.tokens.value_operand(alloc)
    }

    // Reads a memory reference, where one stands.
    #[tactic(auto, using(crate::proofs::Tokens::cell_read, crate::proofs::Tokens::maybe_stops, crate::proofs::Tokens::address_starts, crate::proofs::Tokens::no_cell))]
    pub(crate) fn maybe_address(&mut self, alloc: Global) -> Result<Option<Reference>, Stop>
        ensures ok { IfOk result (λ a. Reads (maybe address) self.old.tokens.rest.now self.new.tokens.rest.now (maybe_cell a)) }
        ensures err { IfErr result (λ e. StopsFor e (maybe address) self.old.tokens.rest.now self.new.tokens.rest.now) }
    {
        if !self.sees(Class::Region(true)) {
            return Ok(None);
        }
        let found = self.address(alloc)?;
        Ok(Some(found))
    }

    // Reads a qubit, where one stands.
    #[tactic(auto, using(crate::proofs::Tokens::qubit_read, crate::proofs::Tokens::maybe_stops, crate::proofs::Tokens::one_starts, crate::proofs::Tokens::no_one))]
    pub(crate) fn maybe_qubit(&mut self, alloc: Global) -> Result<Option<Qubit>, Stop>
        ensures ok { IfOk result (λ q. Reads (maybe (One Class.Qubit)) self.old.tokens.rest.now self.new.tokens.rest.now (maybe_qubit q)) }
        ensures err { IfErr result (λ e. StopsFor e (maybe (One Class.Qubit)) self.old.tokens.rest.now self.new.tokens.rest.now) }
    {
        if !self.sees(Class::Qubit) {
            return Ok(None);
        }
        let found = self.qubit(alloc)?;
        Ok(Some(found))
    }
}
