//! Which statement stands in a line: its first token decides.

ghost use Rattle.std.specs.Prelude.{◌≡◌, IfOk, IfErr};
ghost use Rattle.quil_grammar.specs.Frames.{StopsFor};
ghost use Rattle.quil_grammar.specs.Statements.{control, classical, statement, top_level};
ghost use Rattle.quil_statement.specs.Says.{SaysLine, SaysItem};
ghost use Rattle.quil_statement.specs.Loops.{begins_classical};

use crate::parser::Parser;
use quil_grammar::{Class, Stop};
use quil_tree::{Item, Line};
use std::alloc::Global;

impl<'a, 'b> Parser<'a, 'b> {
    // Reads WAIT, NOP, HALT, a pragma, a label or a jump.
    #[tactic(auto, using(crate::proofs::Choices::bare_said_in, crate::proofs::Choices::pragma_said_in, crate::proofs::Choices::label_said_in, crate::proofs::Choices::jump_if_said_in, crate::proofs::Choices::bare_stops_in, crate::proofs::Choices::pragma_stops_in, crate::proofs::Choices::label_stops_in, crate::proofs::Choices::jump_if_stops_in))]
    fn control(&mut self, alloc: Global) -> Result<Line, Stop>
        ensures ok { IfOk result (λ l. SaysLine control self.old.tokens.rest.now self.new.tokens.rest.now l) }
        ensures err { IfErr result (λ e. StopsFor e control self.old.tokens.rest.now self.new.tokens.rest.now) }
    {
        if self.sees(Class::Bare) {
            self.bare()
        } else if self.sees(Class::Pragma) {
            self.pragma(alloc)
        } else if self.sees(Class::LabelWord) {
            self.label(alloc)
        } else {
            self.jump_if(alloc)
        }
    }

    // An instruction on classical memory comes next.
    fn sees_classical(&self) -> bool
        ensures { result ≡ begins_classical self.now.tokens.rest.now }
    {
        self.sees(Class::UnaryWord)
            || self.sees(Class::PairWord)
            || self.sees(Class::BinaryWord)
            || self.sees(Class::Load)
            || self.sees(Class::Store)
            || self.sees(Class::CompareWord)
    }

    // Reads an instruction on classical memory.
    #[tactic(auto, using(crate::proofs::Choices::unary_said_in, crate::proofs::Choices::pair_said_in, crate::proofs::Choices::binary_said_in, crate::proofs::Choices::load_said_in, crate::proofs::Choices::store_said_in, crate::proofs::Choices::compare_said_in, crate::proofs::Choices::unary_stops_in, crate::proofs::Choices::pair_stops_in, crate::proofs::Choices::binary_stops_in, crate::proofs::Choices::load_stops_in, crate::proofs::Choices::store_stops_in, crate::proofs::Choices::compare_stops_in))]
    fn classical(&mut self, alloc: Global) -> Result<Line, Stop>
        ensures ok { IfOk result (λ l. SaysLine classical self.old.tokens.rest.now self.new.tokens.rest.now l) }
        ensures err { IfErr result (λ e. StopsFor e classical self.old.tokens.rest.now self.new.tokens.rest.now) }
    {
        if self.sees(Class::UnaryWord) {
            self.unary(alloc)
        } else if self.sees(Class::PairWord) {
            self.pair(alloc)
        } else if self.sees(Class::BinaryWord) {
            self.binary(alloc)
        } else if self.sees(Class::Load) {
            self.load(alloc)
        } else if self.sees(Class::Store) {
            self.store(alloc)
        } else {
            self.compare(alloc)
        }
    }

    // Reads a statement that stands anywhere.
    #[tactic(auto, using(crate::proofs::Choices::plain_gate_said_in, crate::proofs::Choices::modified_gate_said_in, crate::proofs::Choices::measure_said_in, crate::proofs::Choices::reset_said_in, crate::proofs::Choices::classical_said_in, crate::proofs::Choices::control_said_in, crate::proofs::Choices::plain_gate_stops_in, crate::proofs::Choices::modified_gate_stops_in, crate::proofs::Choices::measure_stops_in, crate::proofs::Choices::reset_stops_in, crate::proofs::Choices::classical_stops_in, crate::proofs::Choices::control_stops_in, crate::proofs::Choices::left_out_in))]
    pub(crate) fn statement(&mut self, alloc: Global) -> Result<Line, Stop>
        ensures ok { IfOk result (λ l. SaysLine statement self.old.tokens.rest.now self.new.tokens.rest.now l) }
        ensures err { IfErr result (λ e. StopsFor e statement self.old.tokens.rest.now self.new.tokens.rest.now) }
    {
        if self.sees(Class::Gate) {
            self.plain_gate(alloc)
        } else if self.sees(Class::Modifier) || self.sees(Class::Forked) {
            self.modified_gate(alloc)
        } else if self.sees(Class::Measure) {
            self.measure(alloc)
        } else if self.sees(Class::Reset) {
            self.reset(alloc)
        } else if self.sees(Class::LeftOut) {
            Err(Stop::TooLarge)
        } else if self.sees_classical() {
            self.classical(alloc)
        } else {
            self.control(alloc)
        }
    }

    // Reads what stands at the top level; a definition has no body yet.
    #[tactic(auto, using(crate::proofs::Choices::declaration_said_top, crate::proofs::Choices::declaration_stops_top, crate::proofs::Choices::gate_header_said_top, crate::proofs::Choices::gate_header_stops_top, crate::proofs::Choices::circuit_header_said_top, crate::proofs::Choices::circuit_header_stops_top, crate::proofs::Choices::statement_said_top, crate::proofs::Choices::statement_stops_top))]
    pub(crate) fn item(&mut self, alloc: Global) -> Result<Item, Stop>
        ensures ok { IfOk result (λ i. SaysItem top_level self.old.tokens.rest.now self.new.tokens.rest.now i) }
        ensures err { IfErr result (λ e. StopsFor e top_level self.old.tokens.rest.now self.new.tokens.rest.now) }
    {
        if self.sees(Class::Declare) {
            return self.declaration(alloc);
        }
        if self.sees(Class::DefGate) {
            return self.gate_header(alloc);
        }
        if self.sees(Class::DefCircuit) {
            return self.circuit_header(alloc);
        }
        let line = self.statement(alloc)?;
        Ok(Item::Plain(line))
    }
}
