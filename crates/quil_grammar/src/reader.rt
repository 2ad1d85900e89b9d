//! The reader of expressions: a loop over what is still to read.

ghost use Rattle.std.specs.Prelude.{◌≡◌, ◌<◌, ◌≤◌, ◌+◌, ◌*◌, List, [], ◌∷◌, ◌++◌, IfOk, OnOk, IfErr, IfSome, IfNone, drop, OnErr, Err, IsFalse, IsTrue, length, true, false};
ghost use Rattle.quil_shape.specs.Shape.Shape.{Rule};
ghost use Rattle.quil_shape.specs.Reads.{Advances};
ghost use Rattle.quil_grammar.specs.Token.{Token};
ghost use Rattle.quil_grammar.specs.Grammar.{quil, accepts, sign_of, operator_of, function_of, Sum, Primary, index};
ghost use Rattle.quil_grammar.specs.Tables.{tables};
ghost use Rattle.quil_grammar.specs.Grammar.Event.{Index};
ghost use Rattle.quil_grammar.specs.Written.{events_of_atom, cell_events};
ghost use Rattle.quil_grammar.specs.Statements.{address};
ghost use Rattle.quil_grammar.specs.Frames.{is_next, Stands, GoesToStand, StopsFor, Holds, IsRead, IsFormulaRead};
ghost use Rattle.quil_grammar.specs.declared.class.Class.{Class};

use crate::class::Class;
use crate::sort::Sort;
use crate::stop::Stop;
use crate::token::Token;
use crate::value::value_of;
use quil_tree::{
    Action, Address, Atom, Expr, Formula, Function, Operator, Place, Reference, Sign, Step, Text,
    Whole,
};
use std::alloc::Global;
use std::mem::replace;

/// What is still to read, behind an operand.
#[derive(Clone, Copy)]
pub(crate) enum Todo {
    /// More terms of a sum.
    Terms,
    /// More factors of a product.
    Factors,
    /// An exponent.
    Exponent,
    /// Nothing; then the operator is applied, whose first operand begins here.
    Operand(Operator, Place),
    /// Nothing; then the sign is applied, which stands here.
    Signed(Place, Sign),
    /// The parenthesis that ends what began here.
    Parenthesized(Place),
    /// The parenthesis that ends the argument of a function, whose name stands here.
    Argument(Place, Function),
}

/// A reader of tokens. Where it stops it is left at the token.
#[derive(Drop)]
pub struct Reader<'a, 'b> {
    /// The tokens that are left.
    pub rest: &'b [Token<'a>],
    // Whether a cell of memory may stand in the expression.
    references: bool,
    // The steps of an expression so far.
    steps: Vec<Step>,
    // What is still to read of it, the innermost last.
    todo: Vec<Todo>,
    // Where the operand that was read last begins.
    start: Place,
}

pub(crate) fn sign_of(sort: Sort) -> Sign
    ensures { result ≡ sign_of sort }
{
    if sort.is(Sort::Plus) {
        Sign::Plus
    } else {
        Sign::Minus
    }
}

fn operator_of(sort: Sort) -> Operator
    ensures { result ≡ operator_of sort }
{
    if sort.is(Sort::Plus) {
        Operator::Add
    } else if sort.is(Sort::Minus) {
        Operator::Subtract
    } else if sort.is(Sort::Star) {
        Operator::Multiply
    } else if sort.is(Sort::Slash) {
        Operator::Divide
    } else {
        Operator::Power
    }
}

fn function_of(sort: Sort) -> Function
    ensures { result ≡ function_of sort }
{
    if sort.is(Sort::Sqrt) {
        Function::Sqrt
    } else if sort.is(Sort::Sin) {
        Function::Sin
    } else if sort.is(Sort::Cos) {
        Function::Cos
    } else if sort.is(Sort::Cis) {
        Function::Cis
    } else {
        Function::Exp
    }
}

impl<'a, 'b> Reader<'a, 'b> {
    /// A reader of these tokens.
    pub fn new(alloc: Global, tokens: &'b [Token<'a>]) -> Reader<'a, 'b>
        ensures { result.rest.now ≡ tokens.now }
    {
        Reader {
            rest: tokens,
            references: true,
            steps: Vec::new(alloc),
            todo: Vec::new(alloc),
            start: Place { line: 1, column: 1 },
        }
    }

    /// The next token, where it may stand in the place.
    #[tactic(auto, unfolding(crate::specs::Grammar::quil))]
    pub fn next(&self, class: Class) -> Option<&'b Token<'a>>
        ensures some { IfSome result (λ token. (self.now.rest.now ≡ token.now ∷ drop 1 self.now.rest.now) × IsTrue (accepts class token.now.sort)) }
        ensures none { IfNone result (IsFalse (is_next class self.now.rest.now)) }
    {
        let token = self.rest.first()?;
        if class.accepts(token.sort()) {
            Some(token)
        } else {
            None
        }
    }

    /// Moves behind the next token.
    pub fn skip(&mut self)
        requires { 0 < length self.old.rest.now }
        ensures rest { self.new.rest.now ≡ drop 1 self.old.rest.now }
        ensures references { self.new.references ≡ self.old.references }
        ensures steps { self.new.steps ≡ self.old.steps }
        ensures todo { self.new.todo ≡ self.old.todo }
        ensures start { self.new.start ≡ self.old.start }
    {
        self.rest = &self.rest[1..];
    }

    /// Takes the next token, where it may stand in the place.
    pub fn take(&mut self, class: Class) -> Option<&'b Token<'a>>
        ensures some { IfSome result (λ token. (self.old.rest.now ≡ token.now ∷ self.new.rest.now) × IsTrue (accepts class token.now.sort)) }
        ensures none { IfNone result (IsFalse (is_next class self.old.rest.now) × (self.new.rest.now ≡ self.old.rest.now)) }
        ensures references { self.new.references ≡ self.old.references }
        ensures steps { self.new.steps ≡ self.old.steps }
        ensures todo { self.new.todo ≡ self.old.todo }
        ensures start { self.new.start ≡ self.old.start }
    {
        let token = self.next(class)?;
        self.skip();
        Some(token)
    }

    // Reads the index of a cell, in brackets, or none, which is 0.
    #[tactic(auto, using(crate::proofs::Atoms::no_index, crate::proofs::Atoms::index_read, crate::proofs::Atoms::no_number, crate::proofs::Atoms::number_too_large, crate::proofs::Atoms::no_end))]
    fn index(&mut self, alloc: Global) -> Result<Whole, Stop>
        ensures ok { IfOk result (λ whole. Advances quil tables index self.old.rest.now self.new.rest.now (Index whole ∷ [])) }
        ensures err { IfErr result (λ e. StopsFor e index self.old.rest.now self.new.rest.now) }
        ensures within { length self.new.rest.now ≤ length self.old.rest.now }
        ensures references { self.new.references ≡ self.old.references }
        ensures steps { self.new.steps ≡ self.old.steps }
        ensures todo { self.new.todo ≡ self.old.todo }
        ensures start { self.new.start ≡ self.old.start }
    {
        let Some(_) = self.take(Class::IndexBegins) else {
            let digits = Text::new(alloc, b"0")?;
            return Ok(Whole { digits, value: 0 });
        };
        let Some(token) = self.next(Class::Index) else {
            return Err(Stop::Unexpected);
        };
        let Some(value) = value_of(token.text()) else {
            return Err(Stop::TooLarge);
        };
        self.skip();
        let digits = Text::new(alloc, token.text())?;
        let Some(_) = self.take(Class::IndexEnds) else {
            return Err(Stop::Unexpected);
        };
        Ok(Whole { digits, value })
    }

    /// Reads a memory reference.
    #[tactic(auto, using(crate::proofs::Addresses::address_read, crate::proofs::Addresses::address_stops, crate::proofs::Addresses::no_address))]
    pub fn reference(&mut self, alloc: Global) -> Result<Reference, Stop>
        ensures ok { IfOk result (λ a. Advances quil tables address self.old.rest.now self.new.rest.now (cell_events a)) }
        ensures err { IfErr result (λ e. StopsFor e address self.old.rest.now self.new.rest.now) }
    {
        let Some(token) = self.take(Class::Region(true)) else {
            return Err(Stop::Unexpected);
        };
        let region = Text::new(alloc, token.text())?;
        let index = self.index(alloc)?;
        Ok(Reference {
            place: token.place(),
            address: Address { region, index },
        })
    }

    // Reads a number, a constant, a parameter or a cell.
    #[tactic(auto, using(crate::proofs::Atoms::number_read, crate::proofs::Atoms::imaginary_read, crate::proofs::Atoms::pi_read, crate::proofs::Atoms::i_read, crate::proofs::Atoms::parameter_read, crate::proofs::Atoms::cell_read, crate::proofs::Atoms::cell_stops, crate::proofs::Atoms::no_primary))]
    fn atom(&mut self, alloc: Global) -> Result<(Place, Atom), Stop>
        requires no_function { IsFalse (is_next Class.Function self.old.rest.now) }
        requires no_parenthesis { IsFalse (is_next Class.Parenthesis self.old.rest.now) }
        ensures ok { IfOk result (λ found. Advances quil tables (Rule (Primary self.old.references)) self.old.rest.now self.new.rest.now (events_of_atom found.0 found.1)) }
        ensures err { IfErr result (λ e. StopsFor e (Rule (Primary self.old.references)) self.old.rest.now self.new.rest.now) }
        ensures shorter { OnOk result (length self.new.rest.now < length self.old.rest.now) }
        ensures references { self.new.references ≡ self.old.references }
        ensures steps { self.new.steps ≡ self.old.steps }
        ensures todo { self.new.todo ≡ self.old.todo }
        ensures start { self.new.start ≡ self.old.start }
    {
        if let Some(token) = self.take(Class::Number) {
            let text = Text::new(alloc, token.text())?;
            return Ok((token.place(), Atom::Number(text)));
        }
        if let Some(token) = self.take(Class::Imaginary) {
            let text = Text::new(alloc, token.text())?;
            return Ok((token.place(), Atom::Imaginary(text)));
        }
        if let Some(token) = self.take(Class::Pi) {
            return Ok((token.place(), Atom::Pi));
        }
        if let Some(token) = self.take(Class::I) {
            return Ok((token.place(), Atom::I));
        }
        if let Some(token) = self.take(Class::Parameter) {
            return Ok((token.place(), Atom::Parameter(token.number())));
        }
        if let Some(token) = self.take(Class::Region(self.references)) {
            let region = Text::new(alloc, token.text())?;
            let index = self.index(alloc)?;
            return Ok((token.place(), Atom::Cell(Address { region, index })));
        }
        Err(Stop::Unexpected)
    }

    // Begins what stands in parentheses; behind them an exponent may stand.
    fn begin(&mut self, around: Todo) -> Result<(), Stop>
        ensures err { IfErr result (λ e. e ≡ Stop.OutOfMemory) }
        ensures todo { OnOk result (self.new.todo.items ≡ self.old.todo.items ++ Todo.Exponent ∷ around ∷ Todo.Terms ∷ Todo.Factors ∷ []) }
        ensures rest { self.new.rest ≡ self.old.rest }
        ensures references { self.new.references ≡ self.old.references }
        ensures steps { self.new.steps ≡ self.old.steps }
    {
        self.todo.push(Todo::Exponent)?;
        self.todo.push(around)?;
        self.todo.push(Todo::Terms)?;
        self.todo.push(Todo::Factors)?;
        Ok(())
    }

    // Puts an operand behind the steps.
    fn hold(&mut self, place: Place, action: Action) -> Result<(), Stop>
        ensures err { IfErr result (λ e. e ≡ Stop.OutOfMemory) }
        ensures steps { OnOk result (self.new.steps.items ≡ self.old.steps.items ++ record { place = place; action = action } ∷ []) }
        ensures start { OnOk result (self.new.start ≡ place) }
        ensures rest { self.new.rest ≡ self.old.rest }
        ensures references { self.new.references ≡ self.old.references }
        ensures todo { self.new.todo ≡ self.old.todo }
    {
        self.steps.push(Step { place, action })?;
        self.start = place;
        Ok(())
    }

    // Reads on where an operand is to be read, and tells whether one still is.
    #[tactic(auto, using(crate::proofs::Operands::wants_sign, crate::proofs::Operands::wants_parenthesized, crate::proofs::Operands::wants_argument, crate::proofs::Operands::stops_at_argument, crate::proofs::Operands::stops_at_atom, crate::proofs::Operands::holds_atom))]
    fn operand(&mut self, alloc: Global) -> Result<bool, Stop>
        ensures stands { (ts : List Token) → Stands true ts self.old → GoesToStand ts result self.new }
        ensures references { self.new.references ≡ self.old.references }
        ensures smaller { OnOk result (length self.new.todo.items + 8 * length self.new.rest.now < length self.old.todo.items + 8 * length self.old.rest.now) }
    {
        if let Some(token) = self.take(Class::Sign) {
            let sign = sign_of(token.sort());
            self.todo.push(Todo::Signed(token.place(), sign))?;
            return Ok(true);
        }
        if let Some(token) = self.take(Class::Parenthesis) {
            self.begin(Todo::Parenthesized(token.place()))?;
            return Ok(true);
        }
        if let Some(token) = self.take(Class::Function) {
            let function = function_of(token.sort());
            let Some(_) = self.take(Class::ArgumentBegins) else {
                return Err(Stop::Unexpected);
            };
            self.begin(Todo::Argument(token.place(), function))?;
            return Ok(true);
        }
        let (place, atom) = self.atom(alloc)?;
        self.hold(place, Action::Push(atom))?;
        self.todo.push(Todo::Exponent)?;
        Ok(false)
    }

    // Reads on behind an operand, and tells whether another is to be read.
    #[tactic(auto, using(crate::proofs::Behind::terms_end, crate::proofs::Behind::factors_end, crate::proofs::Behind::exponent_ends, crate::proofs::Behind::terms_go_on, crate::proofs::Behind::factors_go_on, crate::proofs::Behind::exponent_goes_on, crate::proofs::Behind::joins, crate::proofs::Behind::signs, crate::proofs::Behind::parenthesis_ends, crate::proofs::Behind::argument_ends, crate::proofs::Behind::no_parenthesis, crate::proofs::Behind::no_argument_end))]
    fn behind(&mut self, todo: Todo) -> Result<bool, Stop>
        ensures stands { (ts : List Token) → Holds self.old.references ts self.old.rest.now (self.old.todo.items ++ todo ∷ []) self.old.steps.items self.old.start → GoesToStand ts result self.new }
        ensures references { self.new.references ≡ self.old.references }
        ensures smaller { OnOk result (length self.new.todo.items + 8 * length self.new.rest.now ≤ length self.old.todo.items + 8 * length self.old.rest.now) }
    {
        match todo {
            Todo::Terms => {
                let Some(token) = self.take(Class::Additive) else {
                    return Ok(false);
                };
                let operator = operator_of(token.sort());
                self.todo.push(Todo::Terms)?;
                self.todo.push(Todo::Operand(operator, self.start))?;
                self.todo.push(Todo::Factors)?;
                Ok(true)
            }
            Todo::Factors => {
                let Some(token) = self.take(Class::Multiplicative) else {
                    return Ok(false);
                };
                let operator = operator_of(token.sort());
                self.todo.push(Todo::Factors)?;
                self.todo.push(Todo::Operand(operator, self.start))?;
                Ok(true)
            }
            Todo::Exponent => {
                let Some(token) = self.take(Class::Caret) else {
                    return Ok(false);
                };
                let operator = operator_of(token.sort());
                self.todo.push(Todo::Operand(operator, self.start))?;
                Ok(true)
            }
            Todo::Operand(operator, start) => {
                self.hold(start, Action::Apply(operator))?;
                Ok(false)
            }
            Todo::Signed(place, sign) => {
                self.hold(place, Action::Sign(sign))?;
                Ok(false)
            }
            Todo::Parenthesized(place) => {
                let Some(_) = self.take(Class::ParenthesisEnds) else {
                    return Err(Stop::Unexpected);
                };
                self.start = place;
                Ok(false)
            }
            Todo::Argument(place, function) => {
                let Some(_) = self.take(Class::ParenthesisEnds) else {
                    return Err(Stop::Unexpected);
                };
                self.hold(place, Action::Call(function))?;
                Ok(false)
            }
        }
    }

    // Reads an expression.
    #[tactic(auto, using(crate::proofs::Expressions::begins, crate::proofs::Expressions::is_read))]
    fn run(&mut self, alloc: Global) -> Result<(), Stop>
        requires no_steps { self.old.steps.items ≡ [] }
        requires no_todo { self.old.todo.items ≡ [] }
        ensures ok { OnOk result (IsFormulaRead self.old.references self.old.rest.now self.new.rest.now (record { place = self.new.start; expr = self.new.steps.items })) }
        ensures err { IfErr result (λ e. StopsFor e (Rule (Sum self.old.references)) self.old.rest.now self.new.rest.now) }
    {
        self.todo.push(Todo::Terms)?;
        self.todo.push(Todo::Factors)?;
        let mut wants = true;
        loop {
            if wants {
                wants = self.operand(alloc)?;
            } else {
                let Some(todo) = self.todo.pop() else {
                    return Ok(());
                };
                wants = self.behind(todo)?;
            }
        }
    }

    /// Reads an expression, in which memory references may stand or not.
    #[tactic(auto, using(crate::proofs::Expressions::formula_within))]
    pub fn formula(&mut self, alloc: Global, references: bool) -> Result<Formula, Stop>
        ensures ok { IfOk result (λ f. IsFormulaRead references self.old.rest.now self.new.rest.now f) }
        ensures err { IfErr result (λ e. StopsFor e (Rule (Sum references)) self.old.rest.now self.new.rest.now) }
        ensures within { OnOk result (length self.new.rest.now ≤ length self.old.rest.now) }
    {
        self.references = references;
        self.steps = Vec::new(alloc);
        self.todo = Vec::new(alloc);
        self.run(alloc)?;
        let steps = replace(&mut self.steps, Vec::new(alloc));
        Ok(Formula {
            place: self.start,
            expr: Expr::new(steps),
        })
    }
}

/// Reads an expression from the front of the tokens, and tells what stands behind it, or where reading stopped.
#[tactic(auto, using(crate::proofs::Expressions::steps_read))]
pub fn expression<'a, 'b>(
    alloc: Global,
    tokens: &'b [Token<'a>],
    references: bool,
) -> (Result<Expr, Stop>, &'b [Token<'a>])
    ensures ok { IfOk result.0 (λ e. IsRead references tokens.entry.now result.1.now e) }
    ensures err { IfErr result.0 (λ e. StopsFor e (Rule (Sum references)) tokens.entry.now result.1.now) }
    ensures large { result.0 ≡ Err Stop.TooLarge → 0 < length result.1.now }
{
    let mut reader = Reader::new(alloc, tokens);
    match reader.formula(alloc, references) {
        Ok(formula) => (Ok(formula.expr), reader.rest),
        Err(stop) => (Err(stop), reader.rest),
    }
}
