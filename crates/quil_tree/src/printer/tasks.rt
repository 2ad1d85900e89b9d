//! What is still to be written of an expression.

ghost use Rattle.std.specs.Prelude.{◌≡◌, [], ◌∷◌, OnOk};
ghost use Rattle.quil_tree.specs.Tasks.{with_top};

use crate::expr::{Function, Operator, Sign};
use std::alloc::{AllocError, Global};
use std::marker::Model;

/// A part of an expression's text that stands before what is written of it.
#[derive(Clone, Copy)]
pub(crate) enum Task {
    /// An expression, the next one of which steps are unread: is it an operand of another one or of a sign?
    Expression(bool),
    /// A parenthesis.
    Open,
    /// A parenthesis and a sign.
    Sign(Sign),
    /// An operation, with the blanks round it.
    Operator(Operator),
    /// The name of a function and a parenthesis.
    Function(Function),
}

/// Tasks: the one on top is the next.
#[derive(Drop)]
pub(crate) struct Tasks {
    tasks: Vec<Task>,
}

impl Model for Tasks {
    ghost use Rattle.std.specs.Prelude.{List, reverse};
    ghost use Rattle.quil_tree.specs.declared.printer.tasks.Task.{Task};

    ghost Value = { List Task };

    ghost view = { λ s. reverse s.tasks.items };
}

impl Tasks {
    /// No task. Takes no memory.
    pub(crate) fn new(alloc: Global) -> Tasks
        ensures { result ≡ [] }
    {
        Tasks {
            tasks: Vec::new(alloc),
        }
    }

    /// Puts a task on top.
    pub(crate) fn push(&mut self, task: Task) -> Result<(), AllocError>
        ensures { OnOk result (self.new ≡ task ∷ self.old) }
    {
        self.tasks.push(task)?;
        Ok(())
    }

    /// Takes the task on top.
    pub(crate) fn pop(&mut self) -> Option<Task>
        ensures { self.old ≡ with_top result self.new }
    {
        self.tasks.pop()
    }
}
