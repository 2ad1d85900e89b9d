//! The words of the language.

ghost use Rattle.std.specs.Prelude.{◌≡◌};
ghost use Rattle.quil_tree.specs.Printed.{function_text, modification_text, operator_text, sign_text, type_text};

use crate::expr::{Function, Operator, Sign};
use crate::item::TypeName;
use crate::statement::Modification;

pub(crate) fn sign(sign: Sign) -> &'static [u8]
    ensures { result.now ≡ sign_text sign }
{
    match sign {
        Sign::Plus => b"+",
        Sign::Minus => b"-",
    }
}

/// With the blanks round it.
pub(crate) fn operator(operator: Operator) -> &'static [u8]
    ensures { result.now ≡ operator_text operator }
{
    match operator {
        Operator::Add => b" + ",
        Operator::Subtract => b" - ",
        Operator::Multiply => b" * ",
        Operator::Divide => b" / ",
        Operator::Power => b" ^ ",
    }
}

pub(crate) fn function(function: Function) -> &'static [u8]
    ensures { result.now ≡ function_text function }
{
    match function {
        Function::Sqrt => b"sqrt",
        Function::Sin => b"sin",
        Function::Cos => b"cos",
        Function::Cis => b"cis",
        Function::Exp => b"exp",
    }
}

pub(crate) fn modification(kind: Modification) -> &'static [u8]
    ensures { result.now ≡ modification_text kind }
{
    match kind {
        Modification::Controlled => b"CONTROLLED",
        Modification::Dagger => b"DAGGER",
        Modification::Forked => b"FORKED",
    }
}

pub(crate) fn type_name(kind: TypeName) -> &'static [u8]
    ensures { result.now ≡ type_text kind }
{
    match kind {
        TypeName::Bit => b"BIT",
        TypeName::Octet => b"OCTET",
        TypeName::Integer => b"INTEGER",
        TypeName::Real => b"REAL",
    }
}
