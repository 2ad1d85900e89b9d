//! The texts of lists, behind another text: in parentheses where something is listed, with a comma and a blank between each
//! two.

ghost use Rattle.std.specs.Prelude.{◌≡◌, ◌++◌, codes, OnOk};
ghost use Rattle.std.specs.List.{flat_map};
ghost use Rattle.quil_tree.specs.Names.{texts_of};
ghost use Rattle.quil_tree.specs.Printed.{formula_texts, listed, with_commas};

use crate::names::NameSet;
use crate::printer::operand::push_formula;
use crate::statement::{Formula, Name};
use crate::text::Text;
use std::alloc::{AllocError, Global};

pub(crate) fn push_parameters(text: &mut Vec<u8>, names: &[Name]) -> Result<(), AllocError>
    ensures { OnOk result (text.new.items ≡ text.old.items ++ listed (texts_of names.now)) }
{
    if let [first, rest @ ..] = names {
        text.extend_from_slice(b"(")?;
        text.extend_from_slice(first.text.as_bytes())?;
        push_more_names(text, rest)?;
        text.extend_from_slice(b")")?;
    }
    Ok(())
}

fn push_more_names(text: &mut Vec<u8>, mut names: &[Name]) -> Result<(), AllocError>
    ensures { OnOk result (text.new.items ≡ text.old.items ++ flat_map (λ name. codes ", " ++ name) (texts_of names.entry.now)) }
{
    while let [name, rest @ ..] = names {
        push_comma(text)?;
        text.extend_from_slice(name.text.as_bytes())?;
        names = rest;
    }
    Ok(())
}

pub(crate) fn push_texts(text: &mut Vec<u8>, texts: &[Text]) -> Result<(), AllocError>
    ensures { OnOk result (text.new.items ≡ text.old.items ++ with_commas texts.now) }
{
    if let [first, rest @ ..] = texts {
        text.extend_from_slice(first.as_bytes())?;
        push_more_texts(text, rest)?;
    }
    Ok(())
}

fn push_more_texts(text: &mut Vec<u8>, mut texts: &[Text]) -> Result<(), AllocError>
    ensures { OnOk result (text.new.items ≡ text.old.items ++ flat_map (λ one. codes ", " ++ one) texts.entry.now) }
{
    while let [one, rest @ ..] = texts {
        push_comma(text)?;
        text.extend_from_slice(one.as_bytes())?;
        texts = rest;
    }
    Ok(())
}

pub(crate) fn push_arguments(
    text: &mut Vec<u8>,
    alloc: Global,
    names: &NameSet,
    formulas: &[Formula],
) -> Result<(), AllocError>
    ensures { OnOk result (text.new.items ≡ text.old.items ++ listed (formula_texts names.now formulas.now)) }
{
    if let [first, rest @ ..] = formulas {
        text.extend_from_slice(b"(")?;
        push_formula(text, alloc, names, first)?;
        push_more_formulas(text, alloc, names, rest)?;
        text.extend_from_slice(b")")?;
    }
    Ok(())
}

pub(crate) fn push_formulas(
    text: &mut Vec<u8>,
    alloc: Global,
    names: &NameSet,
    formulas: &[Formula],
) -> Result<(), AllocError>
    ensures { OnOk result (text.new.items ≡ text.old.items ++ with_commas (formula_texts names.now formulas.now)) }
{
    if let [first, rest @ ..] = formulas {
        push_formula(text, alloc, names, first)?;
        push_more_formulas(text, alloc, names, rest)?;
    }
    Ok(())
}

fn push_more_formulas(
    text: &mut Vec<u8>,
    alloc: Global,
    names: &NameSet,
    mut formulas: &[Formula],
) -> Result<(), AllocError>
    ensures { OnOk result (text.new.items ≡ text.old.items ++ flat_map (λ one. codes ", " ++ one) (formula_texts names.now formulas.entry.now)) }
{
    while let [formula, rest @ ..] = formulas {
        push_comma(text)?;
        push_formula(text, alloc, names, formula)?;
        formulas = rest;
    }
    Ok(())
}

fn push_comma(text: &mut Vec<u8>) -> Result<(), AllocError>
    ensures { OnOk result (text.new.items ≡ text.old.items ++ codes ", ") }
{
    text.extend_from_slice(b", ")
}
