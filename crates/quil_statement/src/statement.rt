//! Statements that begin with a word.

ghost use Rattle.std.specs.Prelude.{◌≡◌, [], ◌∷◌, IfOk, IfErr, OnOk, IsTrue};
ghost use Rattle.quil_shape.specs.Shape.Shape.{One};
ghost use Rattle.quil_grammar.specs.Frames.{StopsFor};
ghost use Rattle.quil_grammar.specs.Statements.{measure, reset, pragma, label, jump_if, unary, pair, binary, load, store, compare};
ghost use Rattle.quil_statement.specs.Meaning.{bare_of, label_of, jump_of, unary_of, pair_of, binary_of, compare_of};
ghost use Rattle.quil_statement.specs.Says.{SaysLine};

use crate::parser::Parser;
use quil_grammar::{Class, Sort, Stop};
use quil_tree::{Line, Name, Operand, Reference, Statement};
use std::alloc::Global;

fn bare_of(sort: Sort) -> Statement
    ensures { result ≡ bare_of sort }
{
    if sort.is(Sort::Wait) {
        Statement::Wait
    } else if sort.is(Sort::Nop) {
        Statement::Nop
    } else {
        Statement::Halt
    }
}

fn label_of(sort: Sort, label: Name) -> Statement
    ensures { result ≡ label_of sort label }
{
    if sort.is(Sort::LabelWord) {
        Statement::Label(label)
    } else {
        Statement::Jump(label)
    }
}

fn jump_of(sort: Sort, label: Name, condition: Reference) -> Statement
    ensures { result ≡ jump_of sort label condition }
{
    if sort.is(Sort::JumpWhen) {
        Statement::JumpWhen(label, condition)
    } else {
        Statement::JumpUnless(label, condition)
    }
}

fn unary_of(sort: Sort, target: Reference) -> Statement
    ensures { result ≡ unary_of sort target }
{
    if sort.is(Sort::Not) {
        Statement::Not(target)
    } else {
        Statement::Neg(target)
    }
}

fn pair_of(sort: Sort, target: Reference, other: Reference) -> Statement
    ensures { result ≡ pair_of sort target other }
{
    if sort.is(Sort::Exchange) {
        Statement::Exchange(target, other)
    } else {
        Statement::Convert(target, other)
    }
}

fn binary_of(sort: Sort, target: Reference, operand: Operand) -> Statement
    ensures { result ≡ binary_of sort target operand }
{
    if sort.is(Sort::Move) {
        Statement::Move(target, operand)
    } else if sort.is(Sort::Add) {
        Statement::Add(target, operand)
    } else if sort.is(Sort::Sub) {
        Statement::Sub(target, operand)
    } else if sort.is(Sort::Mul) {
        Statement::Mul(target, operand)
    } else if sort.is(Sort::Div) {
        Statement::Div(target, operand)
    } else if sort.is(Sort::And) {
        Statement::And(target, operand)
    } else if sort.is(Sort::Ior) {
        Statement::Ior(target, operand)
    } else {
        Statement::Xor(target, operand)
    }
}

fn compare_of(sort: Sort, target: Reference, left: Reference, right: Operand) -> Statement
    ensures { result ≡ compare_of sort target left right }
{
    if sort.is(Sort::Eq) {
        Statement::Eq(target, left, right)
    } else if sort.is(Sort::Gt) {
        Statement::Gt(target, left, right)
    } else if sort.is(Sort::Ge) {
        Statement::Ge(target, left, right)
    } else if sort.is(Sort::Lt) {
        Statement::Lt(target, left, right)
    } else {
        Statement::Le(target, left, right)
    }
}

impl<'a, 'b> Parser<'a, 'b> {
    // Reads MEASURE of a qubit, into a bit where one stands.
    #[tactic(auto, using(crate::proofs::Said::measure_said, crate::proofs::Sequences::stops_first, crate::proofs::Sequences::stops_second, crate::proofs::Sequences::stops_third))]
    pub(crate) fn measure(&mut self, alloc: Global) -> Result<Line, Stop>
        ensures ok { IfOk result (λ l. SaysLine measure self.old.tokens.rest.now self.new.tokens.rest.now l) }
        ensures err { IfErr result (λ e. StopsFor e measure self.old.tokens.rest.now self.new.tokens.rest.now) }
    {
        let (place, _) = self.word(Class::Measure)?;
        let qubit = self.qubit(alloc)?;
        let target = self.maybe_address(alloc)?;
        Ok(Line {
            place,
            statement: Statement::Measure(qubit, target),
        })
    }

    // Reads RESET, of a qubit or of all.
    #[tactic(auto, using(crate::proofs::Said::reset_said, crate::proofs::Sequences::stops_first, crate::proofs::Sequences::stops_second))]
    pub(crate) fn reset(&mut self, alloc: Global) -> Result<Line, Stop>
        ensures ok { IfOk result (λ l. SaysLine reset self.old.tokens.rest.now self.new.tokens.rest.now l) }
        ensures err { IfErr result (λ e. StopsFor e reset self.old.tokens.rest.now self.new.tokens.rest.now) }
    {
        let (place, _) = self.word(Class::Reset)?;
        let qubit = self.maybe_qubit(alloc)?;
        Ok(Line {
            place,
            statement: Statement::Reset(qubit),
        })
    }

    // Reads WAIT, NOP or HALT.
    #[tactic(auto, using(crate::proofs::Said::bare_said))]
    pub(crate) fn bare(&mut self) -> Result<Line, Stop>
        ensures ok { IfOk result (λ l. SaysLine (One Class.Bare) self.old.tokens.rest.now self.new.tokens.rest.now l) }
        ensures err { IfErr result (λ e. StopsFor e (One Class.Bare) self.old.tokens.rest.now self.new.tokens.rest.now) }
    {
        let (place, word) = self.word(Class::Bare)?;
        Ok(Line {
            place,
            statement: bare_of(word),
        })
    }

    // Reads PRAGMA.
    #[tactic(auto, using(crate::proofs::Said::pragma_said, crate::proofs::Sequences::stops_first, crate::proofs::Sequences::stops_second, crate::proofs::Sequences::stops_third))]
    pub(crate) fn pragma(&mut self, alloc: Global) -> Result<Line, Stop>
        ensures ok { IfOk result (λ l. SaysLine pragma self.old.tokens.rest.now self.new.tokens.rest.now l) }
        ensures err { IfErr result (λ e. StopsFor e pragma self.old.tokens.rest.now self.new.tokens.rest.now) }
    {
        let (place, _) = self.word(Class::Pragma)?;
        let name = self.name(alloc, Class::Named)?;
        let words = self.texts(alloc)?;
        Ok(Line {
            place,
            statement: Statement::Pragma(name, words),
        })
    }

    // Reads LABEL or JUMP.
    #[tactic(auto, using(crate::proofs::Said::label_said, crate::proofs::Sequences::stops_first, crate::proofs::Sequences::stops_second))]
    pub(crate) fn label(&mut self, alloc: Global) -> Result<Line, Stop>
        ensures ok { IfOk result (λ l. SaysLine label self.old.tokens.rest.now self.new.tokens.rest.now l) }
        ensures err { IfErr result (λ e. StopsFor e label self.old.tokens.rest.now self.new.tokens.rest.now) }
    {
        let (place, word) = self.word(Class::LabelWord)?;
        let label = self.name(alloc, Class::Label)?;
        Ok(Line {
            place,
            statement: label_of(word, label),
        })
    }

    // Reads JUMP-WHEN or JUMP-UNLESS.
    #[tactic(auto, using(crate::proofs::Said::jump_said, crate::proofs::Sequences::stops_first, crate::proofs::Sequences::stops_second, crate::proofs::Sequences::stops_third))]
    pub(crate) fn jump_if(&mut self, alloc: Global) -> Result<Line, Stop>
        ensures ok { IfOk result (λ l. SaysLine jump_if self.old.tokens.rest.now self.new.tokens.rest.now l) }
        ensures err { IfErr result (λ e. StopsFor e jump_if self.old.tokens.rest.now self.new.tokens.rest.now) }
    {
        let (place, word) = self.word(Class::JumpIf)?;
        let label = self.name(alloc, Class::Label)?;
        let condition = self.address(alloc)?;
        Ok(Line {
            place,
            statement: jump_of(word, label, condition),
        })
    }

    // Reads NOT or NEG.
    #[tactic(auto, using(crate::proofs::Said::unary_said, crate::proofs::Sequences::stops_first, crate::proofs::Sequences::stops_second))]
    pub(crate) fn unary(&mut self, alloc: Global) -> Result<Line, Stop>
        ensures ok { IfOk result (λ l. SaysLine unary self.old.tokens.rest.now self.new.tokens.rest.now l) }
        ensures err { IfErr result (λ e. StopsFor e unary self.old.tokens.rest.now self.new.tokens.rest.now) }
    {
        let (place, word) = self.word(Class::UnaryWord)?;
        let target = self.address(alloc)?;
        Ok(Line {
            place,
            statement: unary_of(word, target),
        })
    }

    // Reads EXCHANGE or CONVERT.
    #[tactic(auto, using(crate::proofs::Said::pair_said, crate::proofs::Sequences::stops_first, crate::proofs::Sequences::stops_second, crate::proofs::Sequences::stops_third))]
    pub(crate) fn pair(&mut self, alloc: Global) -> Result<Line, Stop>
        ensures ok { IfOk result (λ l. SaysLine pair self.old.tokens.rest.now self.new.tokens.rest.now l) }
        ensures err { IfErr result (λ e. StopsFor e pair self.old.tokens.rest.now self.new.tokens.rest.now) }
    {
        let (place, word) = self.word(Class::PairWord)?;
        let target = self.address(alloc)?;
        let other = self.address(alloc)?;
        Ok(Line {
            place,
            statement: pair_of(word, target, other),
        })
    }

    // Reads an instruction on a cell and an operand.
    #[tactic(auto, using(crate::proofs::Said::binary_said, crate::proofs::Sequences::stops_first, crate::proofs::Sequences::stops_second, crate::proofs::Sequences::stops_third))]
    pub(crate) fn binary(&mut self, alloc: Global) -> Result<Line, Stop>
        ensures ok { IfOk result (λ l. SaysLine binary self.old.tokens.rest.now self.new.tokens.rest.now l) }
        ensures err { IfErr result (λ e. StopsFor e binary self.old.tokens.rest.now self.new.tokens.rest.now) }
    {
        let (place, word) = self.word(Class::BinaryWord)?;
        let target = self.address(alloc)?;
        let operand = self.operand(alloc)?;
        Ok(Line {
            place,
            statement: binary_of(word, target, operand),
        })
    }

    // Reads LOAD.
    #[tactic(auto, using(crate::proofs::Said::load_said, crate::proofs::Sequences::stops_first, crate::proofs::Sequences::stops_second, crate::proofs::Sequences::stops_third, crate::proofs::Sequences::stops_fourth))]
    pub(crate) fn load(&mut self, alloc: Global) -> Result<Line, Stop>
        ensures ok { IfOk result (λ l. SaysLine load self.old.tokens.rest.now self.new.tokens.rest.now l) }
        ensures err { IfErr result (λ e. StopsFor e load self.old.tokens.rest.now self.new.tokens.rest.now) }
    {
        let (place, _) = self.word(Class::Load)?;
        let target = self.address(alloc)?;
        let region = self.name(alloc, Class::Named)?;
        let index = self.address(alloc)?;
        Ok(Line {
            place,
            statement: Statement::Load(target, region, index),
        })
    }

    // Reads STORE.
    #[tactic(auto, using(crate::proofs::Said::store_said, crate::proofs::Sequences::stops_first, crate::proofs::Sequences::stops_second, crate::proofs::Sequences::stops_third, crate::proofs::Sequences::stops_fourth))]
    pub(crate) fn store(&mut self, alloc: Global) -> Result<Line, Stop>
        ensures ok { IfOk result (λ l. SaysLine store self.old.tokens.rest.now self.new.tokens.rest.now l) }
        ensures err { IfErr result (λ e. StopsFor e store self.old.tokens.rest.now self.new.tokens.rest.now) }
    {
        let (place, _) = self.word(Class::Store)?;
        let region = self.name(alloc, Class::Named)?;
        let index = self.address(alloc)?;
        let operand = self.operand(alloc)?;
        Ok(Line {
            place,
            statement: Statement::Store(region, index, operand),
        })
    }

    // Reads a comparison.
    #[tactic(auto, using(crate::proofs::Said::compare_said, crate::proofs::Sequences::stops_first, crate::proofs::Sequences::stops_second, crate::proofs::Sequences::stops_third, crate::proofs::Sequences::stops_fourth))]
    pub(crate) fn compare(&mut self, alloc: Global) -> Result<Line, Stop>
        ensures ok { IfOk result (λ l. SaysLine compare self.old.tokens.rest.now self.new.tokens.rest.now l) }
        ensures err { IfErr result (λ e. StopsFor e compare self.old.tokens.rest.now self.new.tokens.rest.now) }
    {
        let (place, word) = self.word(Class::CompareWord)?;
        let target = self.address(alloc)?;
        let left = self.address(alloc)?;
        let right = self.operand(alloc)?;
        Ok(Line {
            place,
            statement: compare_of(word, target, left, right),
        })
    }
}
