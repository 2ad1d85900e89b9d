//! Lists of parts.

ghost use Rattle.std.specs.Prelude.{◌≡◌, ◌<◌, [], ◌∷◌, IfOk, IfErr, OnOk, length};
ghost use Rattle.quil_shape.specs.Shape.Shape.{One, Seq, Many, Rule};
ghost use Rattle.quil_grammar.specs.Grammar.{Sum};
ghost use Rattle.quil_grammar.specs.Frames.{StopsFor};
ghost use Rattle.quil_grammar.specs.Statements.{formulas};
ghost use Rattle.quil_statement.specs.Meaning.{modification_of};
ghost use Rattle.quil_statement.specs.Says.{Reads};
ghost use Rattle.quil_statement.specs.Loops.{listed, acting, naming, taking, keeping, AreFormulas, AreModifiers};

use crate::parser::Parser;
use quil_grammar::{Class, Sort, Stop};
use quil_tree::{Formula, List, Modification, Modifier, Name, Place, Qubit, Text};
use std::alloc::Global;

impl<'a, 'b> Parser<'a, 'b> {
    // Reads qubits, as many as stand there.
    #[tactic(auto, using(crate::proofs::Repeats::qubits_begin, crate::proofs::Repeats::qubits_go_on, crate::proofs::Repeats::qubits_end, crate::proofs::Repeats::qubits_stop))]
    pub(crate) fn qubits(&mut self, alloc: Global) -> Result<List<Qubit>, Stop>
        ensures ok { IfOk result (λ qs. Reads (Many (One Class.Qubit)) self.old.tokens.rest.now self.new.tokens.rest.now (acting qs)) }
        ensures err { IfErr result (λ e. StopsFor e (Many (One Class.Qubit)) self.old.tokens.rest.now self.new.tokens.rest.now) }
    {
        let mut all = List::new(alloc);
        'more: while self.sees(Class::Qubit) {
            let qubit = self.qubit(alloc)?;
            all.push(qubit)?;
        }
        Ok(all)
    }

    // Reads names, as many as stand there.
    #[tactic(auto, using(crate::proofs::Repeats::names_begin, crate::proofs::Repeats::names_go_on, crate::proofs::Repeats::names_end, crate::proofs::Repeats::names_stop))]
    pub(crate) fn names(&mut self, alloc: Global) -> Result<List<Name>, Stop>
        ensures ok { IfOk result (λ ns. Reads (Many (One Class.Named)) self.old.tokens.rest.now self.new.tokens.rest.now (naming ns)) }
        ensures err { IfErr result (λ e. StopsFor e (Many (One Class.Named)) self.old.tokens.rest.now self.new.tokens.rest.now) }
    {
        let mut all = List::new(alloc);
        'more: while self.sees(Class::Named) {
            let name = self.name(alloc, Class::Named)?;
            all.push(name)?;
        }
        Ok(all)
    }

    // Reads the tokens of a pragma.
    #[tactic(auto, using(crate::proofs::Repeats::texts_begin, crate::proofs::Repeats::texts_go_on, crate::proofs::Repeats::texts_end, crate::proofs::Repeats::texts_stop))]
    pub(crate) fn texts(&mut self, alloc: Global) -> Result<List<Text>, Stop>
        ensures ok { IfOk result (λ xs. Reads (Many (One Class.Any)) self.old.tokens.rest.now self.new.tokens.rest.now (keeping xs)) }
        ensures err { IfErr result (λ e. StopsFor e (Many (One Class.Any)) self.old.tokens.rest.now self.new.tokens.rest.now) }
    {
        let mut all = List::new(alloc);
        'more: while self.sees(Class::Any) {
            let text = self.kept(alloc, Class::Any)?;
            all.push(text)?;
        }
        Ok(all)
    }

    // Reads CONTROLLED and DAGGER behind the modifiers before them.
    #[tactic(auto, using(crate::proofs::Repeats::modifiers_begin, crate::proofs::Repeats::modifiers_go_on, crate::proofs::Repeats::modifiers_end, crate::proofs::Repeats::modifiers_stop))]
    pub(crate) fn modifiers(&mut self, before: List<Modifier>) -> Result<List<Modifier>, Stop>
        ensures ok { IfOk result (λ ms. AreModifiers self.old.tokens.rest.now self.new.tokens.rest.now before ms) }
        ensures err { IfErr result (λ e. StopsFor e (Many (One Class.Modifier)) self.old.tokens.rest.now self.new.tokens.rest.now) }
    {
        let mut all = before;
        'more: while self.sees(Class::Modifier) {
            let (place, word) = self.word(Class::Modifier)?;
            all.push(modifier(place, word))?;
        }
        Ok(all)
    }

    // Reads the parameters that a definition takes, with commas between them.
    #[tactic(auto, using(crate::proofs::Sequences::stops_first, crate::proofs::Sequences::stops_second, crate::proofs::Repeats::formals_begin, crate::proofs::Repeats::formals_go_on, crate::proofs::Repeats::formals_end, crate::proofs::Repeats::formals_stop))]
    pub(crate) fn formals(&mut self, alloc: Global) -> Result<List<Name>, Stop>
        ensures ok { IfOk result (λ ns. Reads (listed (One Class.TakenParameter)) self.old.tokens.rest.now self.new.tokens.rest.now (taking ns)) }
        ensures err { IfErr result (λ e. StopsFor e (listed (One Class.TakenParameter)) self.old.tokens.rest.now self.new.tokens.rest.now) }
    {
        let first = self.formal(alloc)?;
        let mut all = List::new(alloc);
        all.push(first)?;
        'more: while self.sees(Class::Comma) {
            self.mark(Class::Comma)?;
            let next = self.formal(alloc)?;
            all.push(next)?;
        }
        Ok(all)
    }

    // Reads the numbers of a permutation, with commas between them.
    #[tactic(auto, using(crate::proofs::Sequences::stops_first, crate::proofs::Sequences::stops_second, crate::proofs::Repeats::numbers_begin, crate::proofs::Repeats::numbers_go_on, crate::proofs::Repeats::numbers_end, crate::proofs::Repeats::numbers_stop))]
    pub(crate) fn numbers(&mut self, alloc: Global) -> Result<List<Text>, Stop>
        ensures ok { IfOk result (λ xs. Reads (listed (One Class.Entry)) self.old.tokens.rest.now self.new.tokens.rest.now (keeping xs)) }
        ensures err { IfErr result (λ e. StopsFor e (listed (One Class.Entry)) self.old.tokens.rest.now self.new.tokens.rest.now) }
    {
        let first = self.kept(alloc, Class::Entry)?;
        let mut all = List::new(alloc);
        all.push(first)?;
        'more: while self.sees(Class::Comma) {
            self.mark(Class::Comma)?;
            let next = self.kept(alloc, Class::Entry)?;
            all.push(next)?;
        }
        Ok(all)
    }

    // Reads expressions with commas between them.
    #[tactic(auto, using(crate::proofs::Sequences::stops_first, crate::proofs::Sequences::stops_second, crate::proofs::Repeats::formulas_begin, crate::proofs::Repeats::formulas_go_on, crate::proofs::Repeats::formulas_end, crate::proofs::Repeats::formulas_stop_first, crate::proofs::Repeats::formulas_stop_second))]
    pub(crate) fn formulas(
        &mut self,
        alloc: Global,
        references: bool,
    ) -> Result<List<Formula>, Stop>
        ensures ok { IfOk result (λ fs. AreFormulas (formulas references) self.old.tokens.rest.now self.new.tokens.rest.now fs) }
        ensures err { IfErr result (λ e. StopsFor e (formulas references) self.old.tokens.rest.now self.new.tokens.rest.now) }
    {
        let first = self.tokens.formula(alloc, references)?;
        let mut all = List::new(alloc);
        all.push(first)?;
        'more: while self.sees(Class::Comma) {
            self.mark(Class::Comma)?;
            let next = self.tokens.formula(alloc, references)?;
            all.push(next)?;
        }
        Ok(all)
    }
}

// A modifier by its word.
pub(crate) fn modifier(place: Place, word: Sort) -> Modifier
    ensures { result ≡ record { place = place; kind = modification_of word } }
{
    let kind = if word.is(Sort::Controlled) {
        Modification::Controlled
    } else if word.is(Sort::Dagger) {
        Modification::Dagger
    } else {
        Modification::Forked
    };
    Modifier { place, kind }
}
