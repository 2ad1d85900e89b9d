//! Gates and calls of circuits.

ghost use Rattle.std.specs.Prelude.{◌≡◌, ◌<◌, ◌≤◌, [], ◌∷◌, IfOk, IfErr, OnOk, IsFalse, false, length};
ghost use Rattle.quil_shape.specs.Shape.Shape.{One, Seq};
ghost use Rattle.quil_grammar.specs.Frames.{StopsFor};
ghost use Rattle.quil_grammar.specs.Statements.{parameters, maybe, behind_name, named, modified, modified_gate};
ghost use Rattle.quil_statement.specs.Says.{SaysLine};
ghost use Rattle.quil_statement.specs.Loops.{AreFormulas, IsCalled, IsNamed, Forks, ModifiedSoFar};

use crate::lists::modifier;
use crate::parser::Parser;
use quil_grammar::{Class, Stop};
use quil_tree::{Formula, Gate, Line, List, Modifier, Name, Place, Statement};
use std::alloc::Global;

impl<'a, 'b> Parser<'a, 'b> {
    // Reads parameters in parentheses.
    #[tactic(auto, using(crate::proofs::Gates::parameters_read, crate::proofs::Sequences::stops_first, crate::proofs::Sequences::stops_second, crate::proofs::Sequences::stops_third))]
    fn parameters(&mut self, alloc: Global) -> Result<List<Formula>, Stop>
        ensures ok { IfOk result (λ fs. AreFormulas parameters self.old.tokens.rest.now self.new.tokens.rest.now fs) }
        ensures err { IfErr result (λ e. StopsFor e parameters self.old.tokens.rest.now self.new.tokens.rest.now) }
    {
        self.mark(Class::ListBegins)?;
        let all = self.formulas(alloc, true)?;
        self.mark(Class::ListEnds)?;
        Ok(all)
    }

    // Reads parameters, where they stand.
    #[tactic(auto, using(crate::proofs::Gates::some_parameters, crate::proofs::Gates::no_parameters, crate::proofs::Gates::parameters_start, crate::proofs::Tokens::maybe_stops))]
    fn maybe_parameters(&mut self, alloc: Global) -> Result<List<Formula>, Stop>
        ensures ok { IfOk result (λ fs. AreFormulas (maybe parameters) self.old.tokens.rest.now self.new.tokens.rest.now fs) }
        ensures err { IfErr result (λ e. StopsFor e (maybe parameters) self.old.tokens.rest.now self.new.tokens.rest.now) }
    {
        if !self.sees(Class::ListBegins) {
            return Ok(List::new(alloc));
        }
        let all = self.parameters(alloc)?;
        Ok(all)
    }

    // Reads what stands behind the name of a gate.
    #[tactic(auto, using(crate::proofs::Gates::called, crate::proofs::Sequences::stops_first, crate::proofs::Gates::qubits_stop))]
    fn behind_name(
        &mut self,
        alloc: Global,
        modifiers: List<Modifier>,
        name: Name,
    ) -> Result<Gate, Stop>
        ensures ok { IfOk result (λ g. IsCalled modifiers name self.old.tokens.rest.now self.new.tokens.rest.now g) }
        ensures err { IfErr result (λ e. StopsFor e behind_name self.old.tokens.rest.now self.new.tokens.rest.now) }
    {
        let parameters = self.maybe_parameters(alloc)?;
        let qubits = self.qubits(alloc)?;
        Ok(Gate {
            modifiers,
            name,
            parameters,
            qubits,
        })
    }

    // Reads a gate without modifiers.
    #[tactic(auto, using(crate::proofs::Gates::plain_said, crate::proofs::Sequences::stops_first, crate::proofs::Sequences::stops_second))]
    pub(crate) fn plain_gate(&mut self, alloc: Global) -> Result<Line, Stop>
        ensures ok { IfOk result (λ l. SaysLine (Seq (One Class.Gate) behind_name) self.old.tokens.rest.now self.new.tokens.rest.now l) }
        ensures err { IfErr result (λ e. StopsFor e (Seq (One Class.Gate) behind_name) self.old.tokens.rest.now self.new.tokens.rest.now) }
    {
        let name = self.name(alloc, Class::Gate)?;
        let place = name.place;
        let gate = self.behind_name(alloc, List::new(alloc), name)?;
        Ok(Line {
            place,
            statement: Statement::Gate(gate),
        })
    }

    // Reads a gate behind its modifiers.
    #[tactic(auto, using(crate::proofs::Gates::named_read, crate::proofs::Sequences::stops_first, crate::proofs::Sequences::stops_second))]
    fn named(&mut self, alloc: Global, modifiers: List<Modifier>) -> Result<Gate, Stop>
        ensures ok { IfOk result (λ g. IsNamed modifiers self.old.tokens.rest.now self.new.tokens.rest.now g) }
        ensures err { IfErr result (λ e. StopsFor e named self.old.tokens.rest.now self.new.tokens.rest.now) }
    {
        let name = self.name(alloc, Class::Named)?;
        let gate = self.behind_name(alloc, modifiers, name)?;
        Ok(gate)
    }

    // Reads the first modifier, and tells how many FORKED may stand behind it.
    #[tactic(auto, using(crate::proofs::Gates::forked_first, crate::proofs::Gates::modifier_first, crate::proofs::Gates::forked_first_stops, crate::proofs::Gates::modifier_first_stops))]
    fn first_modifier(&mut self, alloc: Global) -> Result<(Place, u8, List<Modifier>), Stop>
        ensures ok { IfOk result (λ r. ModifiedSoFar r.1 self.old.tokens.rest.now self.new.tokens.rest.now r.0 r.2) }
        ensures err { IfErr result (λ e. StopsFor e modified_gate self.old.tokens.rest.now self.new.tokens.rest.now) }
    {
        let mut all = List::new(alloc);
        if self.sees(Class::Forked) {
            let (place, word) = self.word(Class::Forked)?;
            all.push(modifier(place, word))?;
            return Ok((place, 3, all));
        }
        let (place, word) = self.word(Class::Modifier)?;
        all.push(modifier(place, word))?;
        Ok((place, 4, all))
    }

    // Reads more modifiers: up to the name, which it tells, or up to one more FORKED and with it.
    #[tactic(auto, using(crate::proofs::Gates::forks_to_name, crate::proofs::Gates::forks_on, crate::proofs::Gates::modifiers_stop_first, crate::proofs::Gates::fifth_exceeds, crate::proofs::Gates::no_name_halts, crate::proofs::Gates::fork_stops))]
    fn more_modifiers(
        &mut self,
        before: List<Modifier>,
        forks: u8,
    ) -> Result<(List<Modifier>, bool), Stop>
        ensures ok { IfOk result (λ r. Forks forks self.old.tokens.rest.now self.new.tokens.rest.now before r.0 r.1) }
        ensures left { IfOk result (λ r. r.1 ≡ false → 0 < forks) }
        ensures err { IfErr result (λ e. StopsFor e (modified forks) self.old.tokens.rest.now self.new.tokens.rest.now) }
    {
        let mut all = self.modifiers(before)?;
        if self.sees(Class::Named) {
            return Ok((all, true));
        }
        if forks == 0 {
            if self.sees(Class::FifthForked) {
                return Err(Stop::TooLarge);
            }
            return Err(Stop::Unexpected);
        }
        let (place, word) = self.word(Class::Forked)?;
        all.push(modifier(place, word))?;
        Ok((all, false))
    }

    // Reads a gate with modifiers.
    #[tactic(auto, using(crate::proofs::Gates::modified_said, crate::proofs::Gates::modified_stops, crate::proofs::Gates::named_stops, crate::proofs::Gates::modified_on))]
    pub(crate) fn modified_gate(&mut self, alloc: Global) -> Result<Line, Stop>
        ensures ok { IfOk result (λ l. SaysLine modified_gate self.old.tokens.rest.now self.new.tokens.rest.now l) }
        ensures err { IfErr result (λ e. StopsFor e modified_gate self.old.tokens.rest.now self.new.tokens.rest.now) }
    {
        let (place, mut forks, mut all) = self.first_modifier(alloc)?;
        'more: loop {
            let (next, is_named) = self.more_modifiers(all, forks)?;
            if is_named {
                let gate = self.named(alloc, next)?;
                return Ok(Line {
                    place,
                    statement: Statement::Gate(gate),
                });
            }
            all = next;
            forks -= 1;
        }
    }
}
