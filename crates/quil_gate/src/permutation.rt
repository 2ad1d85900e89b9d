//! The entries of a permutation.

ghost use Rattle.std.specs.Prelude.{◌≡◌, ◌*◌, ◌/◌, ◌%◌, ◌^◌, ◌<◌, ◌≤◌, length, map, All, IfOk};
ghost use Rattle.qvm_ring.specs.Views.{element_of, elements_of};
ghost use Rattle.qvm_ring.specs.Multiply.{IsWithin};
ghost use Rattle.quil_gate.specs.Definitions.{permutation_entry, permutation_entries, padded};
ghost use Rattle.quil_gate.specs.Reading.{up_to_eight};

use quil_tree::Text;
use qvm_ring::Amp;
use std::alloc::{AllocError, Global};

// The number that a text writes, or 8 where it is above that. A text may be of any length.
fn up_to_eight(text: &[u8]) -> u8
    ensures { result ≡ up_to_eight text.now }
{
    let mut number: u16 = 0;
    for digit in text {
        let longer = number * 10 + u16::from(digit.saturating_sub(b'0'));
        number = longer.min(8);
    }
    number as u8
}

/// The numbers, each as 8 where it is above that.
pub(crate) fn numbers_of(alloc: Global, texts: &[Text]) -> Result<Vec<u8>, AllocError>
    ensures { IfOk result (λ ps. ps.items ≡ map up_to_eight texts.now) }
{
    let mut numbers = Vec::new(alloc);
    for text in texts {
        numbers.push(up_to_eight(text.as_bytes()))?;
    }
    Ok(numbers)
}

fn permutation_entry(numbers: &[u8], row: u8, column: u8) -> Amp
    requires { column < length numbers.now }
    ensures value { element_of result ≡ permutation_entry numbers.now row column }
    ensures small { IsWithin (2 ^ 20) (element_of result) }
{
    if numbers[usize::from(column)] == row {
        Amp::ONE
    } else {
        Amp::ZERO
    }
}

/// The entries row by row, with zeros behind them.
pub(crate) fn permutation_entries(numbers: &[u8], size: u8) -> [Amp; 64]
    requires size { size ≡ length numbers.now }
    requires few { size ≤ 8 }
    requires some { 0 < size }
    ensures value { elements_of result ≡ padded (permutation_entries numbers.now) }
    ensures small { All (λ z. IsWithin (2 ^ 20) (element_of z)) result }
{
    let mut all = [Amp::ZERO; 64];
    for place in 0..size * size {
        all[usize::from(place)] = permutation_entry(numbers, place / size, place % size);
    }
    all
}
