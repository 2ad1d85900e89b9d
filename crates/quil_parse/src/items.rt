//! The items of a text, line by line.

ghost use Rattle.std.specs.Prelude.{◌≡◌, ◌<◌, ◌++◌, ◌∷◌, [], List, length, reverse, Ok, Err, Some, IfOk, IfErr, OnOk, IsOk, true, false};
ghost use Rattle.quil_lex.specs.Reading.{span_of};
ghost use Rattle.quil_shape.specs.Verdict.Verdict.{Refused, TooLarge};
ghost use Rattle.quil_grammar.specs.Token.{span_end};
ghost use Rattle.quil_grammar.specs.Frames.{StopsFor};
ghost use Rattle.quil_grammar.specs.Statements.{nowhere, nothing};
ghost use Rattle.quil_parse.specs.Program.{is_begun, wants_body, body_context, line_shape, body_shape, row_shape, too_large, is_left_out, line_fault};
ghost use Rattle.quil_parse.specs.Steps.{names_in, so_far, last_first, tokens_behind, IsAdded, IsRowAdded, IsBodyAdded, IsStopped, OrNoMemory, IsFaultAt, IsFaultBehind};

use crate::context::Context;
use crate::tokens::{line_tokens, statement_end};
use quil_grammar::{ReadFault, Sort, Stop, Token, refusal};
use quil_lex::Segment;
use quil_statement::{read_item, read_numbers, read_row, read_statement};
use quil_tree::{Form, Item, List, Place, Text};
use std::alloc::{AllocError, Global};
use std::mem::replace;

// A list with one item more.
fn pushed<T: Drop>(mut list: List<T>, item: T) -> Result<List<T>, AllocError>
    ensures { IfOk result (λ all. all ≡ list ++ item ∷ []) }
{
    list.push(item)?;
    Ok(list)
}

// The fault of a token that is too large.
fn too_large(alloc: Global, token: &Token<'_>) -> Result<ReadFault, AllocError>
    ensures { IfOk result (λ f. f ≡ too_large token.now) }
{
    let sort = token.sort();
    let Place { line, column } = token.place();
    if sort.is(Sort::LeftOut) || sort.is(Sort::LeftOutForm) || sort.is(Sort::Forked) {
        let word = Text::new(alloc, token.text())?;
        Ok(ReadFault::LeftOut { line, word })
    } else {
        Ok(ReadFault::NumberTooWide { line, column })
    }
}

// The fault where reading a line stopped at the first of these tokens.
fn fault_at(alloc: Global, stop: Stop, rest: &[Token<'_>], end: Place) -> ReadFault
    ensures { IsFaultAt end stop rest.now result }
{
    match stop {
        Stop::OutOfMemory => ReadFault::OutOfMemory,
        Stop::Unexpected => refusal(rest, end),
        Stop::TooLarge => match rest.split_first() {
            Some((token, _)) => match too_large(alloc, token) {
                Ok(fault) => fault,
                Err(_) => ReadFault::OutOfMemory,
            },
            None => refusal(rest, end),
        },
    }
}

// What was read, if no token is left behind it.
fn whole<T: Drop>(
    alloc: Global,
    found: Result<T, Stop>,
    rest: &[Token<'_>],
    end: Place,
) -> Result<T, ReadFault>
    ensures ok { IfOk result (λ x. (found ≡ Ok x) × (rest.now ≡ [])) }
    ensures err { IfErr result (λ f. IsFaultBehind end found rest.now f) }
{
    match found {
        Ok(read) => {
            if rest.is_empty() {
                Ok(read)
            } else {
                Err(refusal(rest, end))
            }
        }
        Err(stop) => Err(fault_at(alloc, stop, rest, end)),
    }
}

// Why nothing is read of a line that may not stand where it does.
fn misplaced(tokens: &[Token<'_>]) -> Stop
    ensures { StopsFor result nowhere tokens.now tokens.now }
{
    match tokens.split_first() {
        Some((token, _)) => {
            if token.sort().is(Sort::LeftOut) {
                Stop::TooLarge
            } else {
                Stop::Unexpected
            }
        }
        None => Stop::Unexpected,
    }
}

// It is a definition of which no line of the body has been read.
fn is_begun(item: &Item) -> bool
    ensures { result ≡ is_begun item.now }
{
    match item {
        Item::DefGate(gate) => match &gate.form {
            Form::Matrix(rows) => rows.as_slice().is_empty(),
            Form::Permutation(numbers) => numbers.as_slice().is_empty(),
        },
        Item::DefCircuit(circuit) => circuit.body.as_slice().is_empty(),
        Item::Declare(_) | Item::Plain(_) => false,
    }
}

// A gate's body with a row more.
fn with_row(alloc: Global, form: Form, tokens: &[Token<'_>], end: Place) -> Result<Form, ReadFault>
    ensures ok { IfOk result (λ new. IsRowAdded form tokens.now new) }
    ensures err { IfErr result (λ f. OrNoMemory f (IsStopped (row_shape form) tokens.now end f)) }
{
    match form {
        Form::Matrix(rows) => {
            let (found, rest) = read_row(alloc, tokens);
            let row = whole(alloc, found, rest, end)?;
            Ok(Form::Matrix(pushed(rows, row)?))
        }
        Form::Permutation(numbers) => {
            if !numbers.as_slice().is_empty() {
                return Err(refusal(tokens, end));
            }
            let (found, rest) = read_numbers(alloc, tokens);
            let numbers = whole(alloc, found, rest, end)?;
            Ok(Form::Permutation(numbers))
        }
    }
}

// Adds a line to the body of an item.
fn push_body_line(
    alloc: Global,
    item: &mut Item,
    tokens: &[Token<'_>],
    end: Place,
) -> Result<(), ReadFault>
    ensures ok { OnOk result (IsBodyAdded item.old tokens.now item.new) }
    ensures err { IfErr result (λ f. OrNoMemory f (IsStopped (body_shape (item.old ∷ [])) tokens.now end f)) }
{
    match item {
        Item::DefGate(gate) => {
            let form = replace(&mut gate.form, Form::Matrix(List::new(alloc)));
            gate.form = with_row(alloc, form, tokens, end)?;
            Ok(())
        }
        Item::DefCircuit(circuit) => {
            let (found, rest) = read_statement(alloc, tokens);
            let line = whole(alloc, found, rest, end)?;
            let body = replace(&mut circuit.body, List::new(alloc));
            circuit.body = pushed(body, line)?;
            Ok(())
        }
        _ => Err(fault_at(alloc, misplaced(tokens), tokens, end)),
    }
}

/// Items. The last one may still change.
#[derive(Drop)]
pub(crate) struct Items<T> {
    before: List<T>,
    last: Option<T>,
}

impl<T: Drop> Items<T> {
    /// No items.
    pub(crate) fn new(alloc: Global) -> Items<T>
        ensures { so_far result ≡ [] }
    {
        Items {
            before: List::new(alloc),
            last: None,
        }
    }

    // Adds an item behind the others.
    fn push(&mut self, alloc: Global, item: T) -> Result<(), AllocError>
        ensures { OnOk result (so_far self.new ≡ item ∷ so_far self.old) }
    {
        match self.last.replace(item) {
            Some(last) => self.before.push(last)?,
            None => self.before = List::new(alloc),
        }
        Ok(())
    }

    /// All of them, in order, if reading them didn't fail.
    pub(crate) fn finish(
        self,
        alloc: Global,
        read: Result<(), ReadFault>,
    ) -> Result<List<T>, ReadFault>
        ensures ok { IfOk result (λ all. IsOk read × (reverse all ≡ so_far self)) }
        ensures err { IfErr result (λ f. OrNoMemory f (read ≡ Err f)) }
    {
        read?;
        let Items { before, last } = self;
        match last {
            Some(last) => {
                let all = pushed(before, last)?;
                Ok(all)
            }
            None => Ok(List::new(alloc)),
        }
    }
}

/// A line of a body must come next.
pub(crate) fn wants_body(items: &Items<Item>) -> bool
    ensures { result ≡ wants_body (so_far items.now) }
{
    match &items.last {
        Some(item) => is_begun(item),
        None => false,
    }
}

// The names that stand for parameters and qubits in a body behind these items.
fn context_of(alloc: Global, items: &Items<Item>) -> Result<Context, AllocError>
    ensures { IfOk result (λ c. names_in c ≡ body_context (so_far items.now)) }
{
    match &items.last {
        Some(Item::DefGate(gate)) => Context::of(alloc, gate.parameters.as_slice(), &[]),
        Some(Item::DefCircuit(circuit)) => Context::of(
            alloc,
            circuit.parameters.as_slice(),
            circuit.qubits.as_slice(),
        ),
        Some(Item::Declare(_)) | Some(Item::Plain(_)) | None => Ok(Context::none(alloc)),
    }
}

// Adds what stands in a line of the top level.
fn push_item(
    items: &mut Items<Item>,
    alloc: Global,
    tokens: &[Token<'_>],
    end: Place,
) -> Result<(), ReadFault>
    ensures ok { OnOk result (IsAdded false (so_far items.old) tokens.now (so_far items.new)) }
    ensures err { IfErr result (λ f. OrNoMemory f (IsStopped (line_shape false (so_far items.old)) tokens.now end f)) }
{
    if wants_body(items) {
        return Err(fault_at(alloc, misplaced(tokens), tokens, end));
    }
    let (found, rest) = read_item(alloc, tokens);
    let item = whole(alloc, found, rest, end)?;
    items.push(alloc, item)?;
    Ok(())
}

// Adds what stands in a line of a body.
fn push_body(
    items: &mut Items<Item>,
    alloc: Global,
    tokens: &[Token<'_>],
    end: Place,
) -> Result<(), ReadFault>
    ensures ok { OnOk result (IsAdded true (so_far items.old) tokens.now (so_far items.new)) }
    ensures err { IfErr result (λ f. OrNoMemory f (IsStopped (line_shape true (so_far items.old)) tokens.now end f)) }
{
    match &mut items.last {
        Some(item) => push_body_line(alloc, item, tokens, end),
        None => Err(fault_at(alloc, misplaced(tokens), tokens, end)),
    }
}

/// Adds what a line says, or tells the fault at which the line is refused. The context is that of a body behind the items.
#[tactic(auto, using(crate::proofs::Contexts::context_kept))]
pub(crate) fn push_line(
    items: &mut Items<Item>,
    context: &mut Context,
    alloc: Global,
    segment: &Segment<'_>,
) -> Result<(), ReadFault>
    requires { names_in context.old ≡ body_context (so_far items.old) }
    ensures ok { OnOk result (IsAdded segment.now.indented (so_far items.old) (tokens_behind (so_far items.old) (span_of segment.now)) (so_far items.new)) }
    ensures context { OnOk result (names_in context.new ≡ body_context (so_far items.new)) }
    ensures err { IfErr result (λ f. OrNoMemory f (IsStopped (line_shape segment.now.indented (so_far items.old)) (tokens_behind (so_far items.old) (span_of segment.now)) (span_end (span_of segment.now)) f)) }
{
    let end = statement_end(segment);
    if segment.indented {
        let tokens = line_tokens(alloc, segment, context)?;
        push_body(items, alloc, &tokens, end)
    } else {
        let tokens = line_tokens(alloc, segment, &Context::none(alloc))?;
        push_item(items, alloc, &tokens, end)?;
        *context = context_of(alloc, items)?;
        Ok(())
    }
}
