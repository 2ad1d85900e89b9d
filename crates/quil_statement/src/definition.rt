//! Headers of definitions.

ghost use Rattle.std.specs.Prelude.{◌≡◌, [], ◌∷◌, IfOk, IfErr, OnOk};
ghost use Rattle.quil_shape.specs.Shape.Shape.{One, Or};
ghost use Rattle.quil_grammar.specs.Frames.{StopsFor};
ghost use Rattle.quil_grammar.specs.Statements.{maybe, formals, matrix_form, any_form, gate_shape, gate_header, circuit_header};
ghost use Rattle.quil_statement.specs.Says.{Reads, SaysItem};
ghost use Rattle.quil_statement.specs.Loops.{taking, IsForm, IsShape};

use crate::parser::Parser;
use quil_grammar::{Class, Stop};
use quil_tree::{CircuitDefinition, Form, GateDefinition, Item, List, Name};
use std::alloc::Global;

impl<'a, 'b> Parser<'a, 'b> {
    // Reads the parameters of a definition in parentheses.
    #[tactic(auto, using(crate::proofs::Definitions::formals_read, crate::proofs::Sequences::stops_first, crate::proofs::Sequences::stops_second, crate::proofs::Sequences::stops_third))]
    fn parameter_names(&mut self, alloc: Global) -> Result<List<Name>, Stop>
        ensures ok { IfOk result (λ ns. Reads formals self.old.tokens.rest.now self.new.tokens.rest.now (taking ns)) }
        ensures err { IfErr result (λ e. StopsFor e formals self.old.tokens.rest.now self.new.tokens.rest.now) }
    {
        self.mark(Class::ListBegins)?;
        let all = self.formals(alloc)?;
        self.mark(Class::ListEnds)?;
        Ok(all)
    }

    // Reads the same, where they stand.
    #[tactic(auto, using(crate::proofs::Definitions::formals_stand, crate::proofs::Definitions::no_formals, crate::proofs::Definitions::formals_start, crate::proofs::Tokens::maybe_stops))]
    fn maybe_parameter_names(&mut self, alloc: Global) -> Result<List<Name>, Stop>
        ensures ok { IfOk result (λ ns. Reads (maybe formals) self.old.tokens.rest.now self.new.tokens.rest.now (taking ns)) }
        ensures err { IfErr result (λ e. StopsFor e (maybe formals) self.old.tokens.rest.now self.new.tokens.rest.now) }
    {
        if !self.sees(Class::ListBegins) {
            return Ok(List::new(alloc));
        }
        let all = self.parameter_names(alloc)?;
        Ok(all)
    }

    // Reads AS MATRIX.
    #[tactic(auto, using(crate::proofs::Definitions::matrix_read, crate::proofs::Definitions::matrix_left_out, crate::proofs::Definitions::matrix_stops, crate::proofs::Sequences::stops_first))]
    fn matrix_form(&mut self) -> Result<(), Stop>
        ensures ok { OnOk result (Reads matrix_form self.old.tokens.rest.now self.new.tokens.rest.now []) }
        ensures err { IfErr result (λ e. StopsFor e matrix_form self.old.tokens.rest.now self.new.tokens.rest.now) }
    {
        self.mark(Class::As)?;
        if self.sees(Class::LeftOutForm) {
            return Err(Stop::TooLarge);
        }
        self.mark(Class::Matrix)?;
        Ok(())
    }

    // Reads the same, where it stands.
    #[tactic(auto, using(crate::proofs::Definitions::matrix_stands, crate::proofs::Definitions::no_matrix, crate::proofs::Definitions::matrix_starts, crate::proofs::Tokens::maybe_stops))]
    fn maybe_matrix_form(&mut self) -> Result<(), Stop>
        ensures ok { OnOk result (Reads (maybe matrix_form) self.old.tokens.rest.now self.new.tokens.rest.now []) }
        ensures err { IfErr result (λ e. StopsFor e (maybe matrix_form) self.old.tokens.rest.now self.new.tokens.rest.now) }
    {
        if !self.sees(Class::As) {
            return Ok(());
        }
        self.matrix_form()?;
        Ok(())
    }

    // Reads AS MATRIX or AS PERMUTATION, and tells whether it is a permutation.
    #[tactic(auto, using(crate::proofs::Definitions::form_permutation, crate::proofs::Definitions::form_matrix, crate::proofs::Definitions::form_left_out, crate::proofs::Definitions::form_permutation_stops, crate::proofs::Definitions::form_matrix_stops, crate::proofs::Sequences::stops_first))]
    fn any_form(&mut self) -> Result<bool, Stop>
        ensures ok { IfOk result (λ b. IsForm any_form self.old.tokens.rest.now self.new.tokens.rest.now b) }
        ensures err { IfErr result (λ e. StopsFor e any_form self.old.tokens.rest.now self.new.tokens.rest.now) }
    {
        self.mark(Class::As)?;
        if self.sees(Class::LeftOutForm) {
            return Err(Stop::TooLarge);
        }
        if self.sees(Class::Permutation) {
            let _ = self.word(Class::Permutation)?;
            return Ok(true);
        }
        self.mark(Class::Matrix)?;
        Ok(false)
    }

    // Reads the same, where it stands.
    #[tactic(auto, using(crate::proofs::Definitions::form_stands, crate::proofs::Definitions::no_form, crate::proofs::Definitions::form_starts, crate::proofs::Tokens::maybe_stops))]
    fn maybe_any_form(&mut self) -> Result<bool, Stop>
        ensures ok { IfOk result (λ b. IsForm (maybe any_form) self.old.tokens.rest.now self.new.tokens.rest.now b) }
        ensures err { IfErr result (λ e. StopsFor e (maybe any_form) self.old.tokens.rest.now self.new.tokens.rest.now) }
    {
        if !self.sees(Class::As) {
            return Ok(false);
        }
        let is_permutation = self.any_form()?;
        Ok(is_permutation)
    }

    // Reads the parameters and the form of a gate's definition.
    #[tactic(auto, using(crate::proofs::Definitions::shape_with_parameters, crate::proofs::Definitions::shape_of_form, crate::proofs::Definitions::shape_stops_first, crate::proofs::Definitions::shape_stops_second, crate::proofs::Definitions::shape_stops))]
    fn gate_shape(&mut self, alloc: Global) -> Result<(List<Name>, Form), Stop>
        ensures ok { IfOk result (λ r. IsShape self.old.tokens.rest.now self.new.tokens.rest.now r.0 r.1) }
        ensures err { IfErr result (λ e. StopsFor e gate_shape self.old.tokens.rest.now self.new.tokens.rest.now) }
    {
        if self.sees(Class::ListBegins) {
            let parameters = self.parameter_names(alloc)?;
            self.maybe_matrix_form()?;
            return Ok((parameters, Form::Matrix(List::new(alloc))));
        }
        let is_permutation = self.maybe_any_form()?;
        let form = if is_permutation {
            Form::Permutation(List::new(alloc))
        } else {
            Form::Matrix(List::new(alloc))
        };
        Ok((List::new(alloc), form))
    }

    // Reads the header of a gate's definition.
    #[tactic(auto, using(crate::proofs::Definitions::gate_header_said, crate::proofs::Sequences::stops_first, crate::proofs::Sequences::stops_second, crate::proofs::Sequences::stops_third, crate::proofs::Definitions::gate_header_stops))]
    pub(crate) fn gate_header(&mut self, alloc: Global) -> Result<Item, Stop>
        ensures ok { IfOk result (λ i. SaysItem gate_header self.old.tokens.rest.now self.new.tokens.rest.now i) }
        ensures err { IfErr result (λ e. StopsFor e gate_header self.old.tokens.rest.now self.new.tokens.rest.now) }
    {
        let (place, _) = self.word(Class::DefGate)?;
        let name = self.name(alloc, Class::Named)?;
        let (parameters, form) = self.gate_shape(alloc)?;
        self.mark(Class::Colon)?;
        Ok(Item::DefGate(GateDefinition {
            place,
            name,
            parameters,
            form,
        }))
    }

    // Reads the header of a circuit's definition.
    #[tactic(auto, using(crate::proofs::Definitions::circuit_header_said, crate::proofs::Sequences::stops_first, crate::proofs::Sequences::stops_second, crate::proofs::Sequences::stops_third, crate::proofs::Sequences::stops_fourth, crate::proofs::Definitions::circuit_header_stops))]
    pub(crate) fn circuit_header(&mut self, alloc: Global) -> Result<Item, Stop>
        ensures ok { IfOk result (λ i. SaysItem circuit_header self.old.tokens.rest.now self.new.tokens.rest.now i) }
        ensures err { IfErr result (λ e. StopsFor e circuit_header self.old.tokens.rest.now self.new.tokens.rest.now) }
    {
        let (place, _) = self.word(Class::DefCircuit)?;
        let name = self.name(alloc, Class::Named)?;
        let parameters = self.maybe_parameter_names(alloc)?;
        let qubits = self.names(alloc)?;
        self.mark(Class::Colon)?;
        Ok(Item::DefCircuit(CircuitDefinition {
            place,
            name,
            parameters,
            qubits,
            body: List::new(alloc),
        }))
    }
}
