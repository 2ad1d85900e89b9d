//! The texts that the program prints.

ghost use Rattle.std.specs.Prelude.{◌≡◌, ◌+◌, ◌<◌, ◌≤◌, ◌++◌, length, IfOk, OnOk, codes};
ghost use Rattle.std.specs.Fmt.{signed_decimal};
ghost use Rattle.quil_memory.specs.Cells.{value_at};
ghost use Rattle.quil_memory.specs.Layout.{width, first_bit, most_bits};
ghost use Rattle.qvm.specs.RunText.{cell_text, cell_values, values_text, region_text, memory_text, report_line};

use quil_memory::{CellType, Layout, Memory, Region, push_eighths};
use qvm_diagnostic::Diagnostic;
use std::alloc::{AllocError, Global};

/// Adds a line: some words, and what the diagnostic says.
pub(crate) fn push_line(
    alloc: Global,
    text: &mut Vec<u8>,
    front: &str,
    diagnostic: &Diagnostic<'_>,
) -> Result<(), AllocError>
    ensures { OnOk result (text.new.items ≡ text.old.items ++ report_line front.now diagnostic.now) }
{
    text.extend_from_slice(front.as_bytes())?;
    diagnostic.push_text(alloc, text)?;
    text.push(b'\n')?;
    Ok(())
}

fn push_number(alloc: Global, text: &mut Vec<u8>, number: i64) -> Result<(), AllocError>
    ensures { OnOk result (text.new.items ≡ text.old.items ++ signed_decimal number) }
{
    let digits = format!(in alloc; "{number}")?;
    text.extend_from_slice(digits.as_bytes())
}

// Adds the value of a cell of that type.
fn push_value(
    alloc: Global,
    text: &mut Vec<u8>,
    kind: CellType,
    value: i64,
) -> Result<(), AllocError>
    ensures { OnOk result (text.new.items ≡ text.old.items ++ cell_text kind value) }
{
    match kind {
        CellType::Bit | CellType::Octet | CellType::Integer => push_number(alloc, text, value),
        CellType::Real => push_eighths(alloc, text, value),
    }
}

// Adds the value of a region's cell behind a blank.
#[tactic(auto, using(crate::proofs::Texts::cell_within))]
fn push_cell(
    alloc: Global,
    text: &mut Vec<u8>,
    region: &Region,
    index: u64,
    memory: &Memory,
) -> Result<(), AllocError>
    requires few { length memory.now ≤ most_bits }
    requires within { region.now.first + width region.now.kind region.now.length ≤ length memory.now }
    requires cell { index < region.now.length }
    ensures { OnOk result (text.new.items ≡ text.old.items ++ (codes " " ++ cell_text region.now.kind (value_at region.now.kind (first_bit region.now index) memory.now))) }
{
    text.push(b' ')?;
    let value = memory.value(region.kind, region.first_bit(index));
    push_value(alloc, text, region.kind, value)
}

// Adds the values of a region's cells, each behind a blank.
fn push_values(
    alloc: Global,
    text: &mut Vec<u8>,
    region: &Region,
    memory: &Memory,
) -> Result<(), AllocError>
    requires few { length memory.now ≤ most_bits }
    requires within { region.now.first + width region.now.kind region.now.length ≤ length memory.now }
    ensures { OnOk result (text.new.items ≡ text.old.items ++ values_text region.now.kind (cell_values memory.now region.now)) }
{
    for index in 0..region.length {
        push_cell(alloc, text, region, index, memory)?;
    }
    Ok(())
}

// Adds a region's line.
fn push_region(
    alloc: Global,
    text: &mut Vec<u8>,
    region: &Region,
    memory: &Memory,
) -> Result<(), AllocError>
    requires few { length memory.now ≤ most_bits }
    requires within { region.now.first + width region.now.kind region.now.length ≤ length memory.now }
    ensures { OnOk result (text.new.items ≡ text.old.items ++ region_text memory.now region.now) }
{
    text.extend_from_slice(region.name.as_bytes())?;
    text.push(b':')?;
    push_values(alloc, text, region, memory)?;
    text.push(b'\n')?;
    Ok(())
}

/// The text of a memory of that layout: a line for each region in order of declaration, with its name and its values.
pub(crate) fn memory_text(
    alloc: Global,
    layout: &Layout,
    memory: &Memory,
) -> Result<Vec<u8>, AllocError>
    requires { length memory.now ≡ layout.now.bits }
    ensures { IfOk result (λ text. text.items ≡ memory_text memory.now layout.now) }
{
    let mut text = Vec::new(alloc);
    for number in 0..layout.count() {
        push_region(alloc, &mut text, layout.region(number), memory)?;
    }
    Ok(text)
}
