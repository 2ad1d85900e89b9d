//! The entries of a definition, in the order of the text.

ghost use Rattle.std.specs.Prelude.{◌≡◌, ◌∷◌, ◌++◌, [], Ok, Err, IfOk, IfErr};
ghost use Rattle.std.specs.List.{flat_map};
ghost use Rattle.quil_value.specs.Results.{and_then, each};
ghost use Rattle.quil_gate.specs.Definitions.{lack_of, entry_of_value, entry_at, entries_of_rows};
ghost use Rattle.quil_gate.specs.Reading.{OrWantsMemory, number_entry, entries_of};

use crate::formula::formula_value;
use crate::gate_fault::GateFault;
use quil_tree::{Formula, List, Place};
use quil_value::{Kind, Lack, RingNumber, Stop, Value};
use std::alloc::Global;

// A fault at a part, or at the whole entry, which begins at this place.
fn lack_of(place: Place, stop: Stop) -> GateFault
    ensures { result ≡ lack_of place stop }
{
    match stop {
        Stop::At(part, lack) => GateFault::Lack(part, lack),
        Stop::Whole(lack) => GateFault::Lack(place, lack),
    }
}

// The ring number that a value is, or NotExact at the entry's place.
fn entry_of_value(place: Place, value: Value) -> Result<RingNumber, GateFault>
    ensures ok { IfOk result (λ x. entry_of_value place value ≡ Ok (number_entry x)) }
    ensures err { IfErr result (λ f. entry_of_value place value ≡ Err f) }
{
    match value.kind() {
        Kind::Ring(number) => Ok(number),
        Kind::Rational(_) | Kind::Pi(_) | Kind::ImagPi(_) => {
            Err(GateFault::Lack(place, Lack::NotExact))
        }
    }
}

// An entry.
fn entry_at(alloc: Global, formula: &Formula, values: &[Value]) -> Result<RingNumber, GateFault>
    ensures ok { IfOk result (λ x. entry_at values.now formula.now ≡ Ok (number_entry x)) }
    ensures err { IfErr result (λ f. OrWantsMemory f (entry_at values.now formula.now ≡ Err f)) }
{
    match formula_value(alloc, formula, values)? {
        Ok(value) => entry_of_value(formula.place, value),
        Err(stop) => Err(lack_of(formula.place, stop)),
    }
}

// The entries, and those of one more row.
fn with_row(
    alloc: Global,
    mut entries: Vec<RingNumber>,
    mut row: &[Formula],
    values: &[Value],
) -> Result<Vec<RingNumber>, GateFault>
    ensures ok { IfOk result (λ all. and_then (each (entry_at values.now) row.entry.now) (λ es. Ok (entries_of entries.items ++ es)) ≡ Ok (entries_of all.items)) }
    ensures err { IfErr result (λ f. OrWantsMemory f (each (entry_at values.now) row.entry.now ≡ Err f)) }
{
    while let [formula, rest @ ..] = row {
        let entry = entry_at(alloc, formula, values)?;
        entries.push(entry)?;
        row = rest;
    }
    Ok(entries)
}

/// The entries of all rows.
pub(crate) fn entries_of_rows(
    alloc: Global,
    rows: &[List<Formula>],
    values: &[Value],
) -> Result<Vec<RingNumber>, GateFault>
    ensures ok { IfOk result (λ all. entries_of_rows values.now rows.now ≡ Ok (entries_of all.items)) }
    ensures err { IfErr result (λ f. OrWantsMemory f (entries_of_rows values.now rows.now ≡ Err f)) }
{
    let mut entries = Vec::new(alloc);
    for row in rows {
        entries = with_row(alloc, entries, row.as_slice(), values)?;
    }
    Ok(entries)
}
