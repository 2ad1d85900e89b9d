//! What expressions come to under values of their parameters.

ghost use Rattle.std.specs.Prelude.{◌≡◌, Ok, IfOk, map};
ghost use Rattle.quil_value.specs.declared.worked.Worked.TheVariants.{Plain};
ghost use Rattle.quil_gate.specs.Definitions.{formula_value};

use quil_tree::Formula;
use quil_value::{Argument, Stop, Value, WorkFault, Worked, eval};
use std::alloc::{AllocError, Global};

// The values as arguments of an expression.
fn arguments_of(alloc: Global, values: &[Value]) -> Result<Vec<Argument>, AllocError>
    ensures { IfOk result (λ all. all.items ≡ map (λ x. Ok (Plain x)) values.now) }
{
    let mut arguments = Vec::new(alloc);
    for value in values {
        arguments.push(Ok(Worked::Plain(*value)))?;
    }
    Ok(arguments)
}

/// What an expression comes to where its parameters have these values: its value, or where it stops.
pub fn formula_value(
    alloc: Global,
    formula: &Formula,
    values: &[Value],
) -> Result<Result<Value, Stop>, AllocError>
    ensures { IfOk result (λ r. r ≡ formula_value values.now formula.now) }
{
    let arguments = arguments_of(alloc, values)?;
    // These are the steps of a tree.
    let _steps = formula.expr.steps();
    match eval(alloc, &formula.expr, &arguments) {
        Ok(value) => Ok(Ok(value)),
        Err(WorkFault::Stop(stop)) => Ok(Err(stop)),
        Err(WorkFault::OutOfMemory) => Err(AllocError),
    }
}
