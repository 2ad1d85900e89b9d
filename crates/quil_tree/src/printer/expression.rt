//! The text of an expression.
//!
//! Nothing bounds the depth of an expression, so its steps are read once, from the last one to the first, and its text is
//! written from its end.

ghost use Rattle.std.specs.Prelude.{◌≡◌, ◌∷◌, ◌++◌, codes, IfOk, OnOk};
ghost use Rattle.quil_tree.specs.Printed.{address_text, atom_text, steps_text};
ghost use Rattle.quil_tree.specs.Tasks.{from_expression, closing, last_text, task_text, tasks_before, texts_on_top, with_expression};

use crate::expr::{Action, Address, Atom, Expr, Operator};
use crate::names::NameSet;
use crate::printer::backwards::Backwards;
use crate::printer::tasks::{Task, Tasks};
use crate::printer::word;
use std::alloc::{AllocError, Global};

/// Writes an expression behind a text.
pub(crate) fn push_expression(
    text: &mut Vec<u8>,
    alloc: Global,
    names: &NameSet,
    expr: &Expr,
) -> Result<(), AllocError>
    ensures { OnOk result (text.new.items ≡ text.old.items ++ steps_text names.now expr.now) }
{
    let mut tasks = Tasks::new(alloc);
    tasks.push(Task::Expression(false))?;
    let mut written = Backwards::new(alloc);
    let mut steps = expr.steps();
    while let Some((step, rest)) = steps.split_last() {
        if let Some(is_operand) = put_texts(&mut written, &mut tasks)? {
            put_step(&mut written, &mut tasks, names, &step.action, is_operand)?;
        }
        steps = rest;
    }
    put_texts(&mut written, &mut tasks)?;
    written.append_to(text)
}

// Writes the texts on top of the first expression, and takes that from the tasks. Answers if it is an operand, or that there
// is no expression.
fn put_texts(written: &mut Backwards, tasks: &mut Tasks) -> Result<Option<bool>, AllocError>
    ensures written { OnOk result (written.new ≡ texts_on_top tasks.old ++ written.old) }
    ensures tasks { IfOk result (λ top. from_expression tasks.old ≡ with_expression top tasks.new) }
{
    while let Some(task) = tasks.pop() {
        if let Task::Expression(is_operand) = task {
            return Ok(Some(is_operand));
        }
        put_text(written, task)?;
    }
    Ok(None)
}

fn put_text(written: &mut Backwards, task: Task) -> Result<(), AllocError>
    ensures { OnOk result (written.new ≡ task_text task ++ written.old) }
{
    match task {
        Task::Expression(_is_operand) => Ok(()),
        Task::Open => written.put(b"("),
        Task::Sign(sign) => put_both(written, b"(", word::sign(sign)),
        Task::Operator(operator) => written.put(word::operator(operator)),
        Task::Function(function) => put_both(written, word::function(function), b"("),
    }
}

fn put_both(written: &mut Backwards, first: &[u8], second: &[u8]) -> Result<(), AllocError>
    ensures { OnOk result (written.new ≡ (first.now ++ second.now) ++ written.old) }
{
    written.put(second)?;
    written.put(first)
}

// Writes the last part of an expression with this last step. What stands before that part becomes tasks.
fn put_step(
    written: &mut Backwards,
    tasks: &mut Tasks,
    names: &NameSet,
    action: &Action,
    is_operand: bool,
) -> Result<(), AllocError>
    ensures written { OnOk result (written.new ≡ last_text names.now is_operand action.now ++ written.old) }
    ensures tasks { OnOk result (tasks.new ≡ tasks_before is_operand action.now ++ tasks.old) }
{
    match action {
        Action::Push(atom) => put_atom(written, names, atom),
        Action::Sign(sign) => put_enclosed(written, tasks, Task::Sign(*sign), true),
        Action::Apply(operator) => put_operation(written, tasks, *operator, is_operand),
        Action::Call(function) => put_enclosed(written, tasks, Task::Function(*function), false),
    }
}

// Writes a closing parenthesis. The task has the opening one, and the expression stands between them.
fn put_enclosed(
    written: &mut Backwards,
    tasks: &mut Tasks,
    opening: Task,
    is_operand: bool,
) -> Result<(), AllocError>
    ensures written { OnOk result (written.new ≡ codes ")" ++ written.old) }
    ensures tasks { OnOk result (tasks.new ≡ Task.Expression is_operand ∷ opening ∷ tasks.old) }
{
    written.put(b")")?;
    tasks.push(opening)?;
    tasks.push(Task::Expression(is_operand))
}

fn put_operation(
    written: &mut Backwards,
    tasks: &mut Tasks,
    operator: Operator,
    is_operand: bool,
) -> Result<(), AllocError>
    ensures written { OnOk result (written.new ≡ closing is_operand ++ written.old) }
    ensures tasks { OnOk result (tasks.new ≡ tasks_before is_operand (Action.Apply operator) ++ tasks.old) }
{
    if is_operand {
        written.put(b")")?;
        tasks.push(Task::Open)?;
    }
    tasks.push(Task::Expression(true))?;
    tasks.push(Task::Operator(operator))?;
    tasks.push(Task::Expression(true))
}

fn put_atom(written: &mut Backwards, names: &NameSet, atom: &Atom) -> Result<(), AllocError>
    ensures { OnOk result (written.new ≡ atom_text names.now atom.now ++ written.old) }
{
    match atom {
        Atom::Number(text) => written.put(text.as_bytes()),
        Atom::Imaginary(text) => written.put(text.as_bytes()),
        Atom::Pi => written.put(b"pi"),
        Atom::I => written.put(b"i"),
        Atom::Parameter(number) => match names.get(*number) {
            Some(name) => written.put(name),
            None => Ok(()),
        },
        Atom::Cell(address) => put_address(written, address),
    }
}

fn put_address(written: &mut Backwards, address: &Address) -> Result<(), AllocError>
    ensures { OnOk result (written.new ≡ address_text address.now ++ written.old) }
{
    written.put(b"]")?;
    written.put(address.index.digits.as_bytes())?;
    written.put(b"[")?;
    written.put(address.region.as_bytes())
}
