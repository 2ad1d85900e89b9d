//! Texts of angles.

ghost use Rattle.std.specs.Prelude.{◌≡◌, ◌++◌, OnOk};
ghost use Rattle.quil_memory.specs.EighthsText.{eighths_text, multiple_text};

use std::alloc::{AllocError, Global};

/// Adds the text of a count of eighths of a turn, as a multiple of pi in lowest terms: `0`, `pi/2`, `-3*pi/4`.
pub fn push_eighths(alloc: Global, text: &mut Vec<u8>, count: i64) -> Result<(), AllocError>
    ensures { OnOk result (text.new.items ≡ text.old.items ++ eighths_text count) }
{
    let size = count.unsigned_abs();
    if size % 4 == 0 {
        push_multiple(alloc, text, count / 4)
    } else if size % 2 == 0 {
        push_multiple(alloc, text, count / 2)?;
        text.extend_from_slice(b"/2")
    } else {
        push_multiple(alloc, text, count)?;
        text.extend_from_slice(b"/4")
    }
}

// Adds the text of a whole multiple of pi.
fn push_multiple(alloc: Global, text: &mut Vec<u8>, factor: i64) -> Result<(), AllocError>
    ensures { OnOk result (text.new.items ≡ text.old.items ++ multiple_text factor) }
{
    match factor {
        0 => text.extend_from_slice(b"0"),
        1 => text.extend_from_slice(b"pi"),
        -1 => text.extend_from_slice(b"-pi"),
        _ => {
            let multiple = format!(in alloc; "{factor}*pi")?;
            text.extend_from_slice(multiple.as_bytes())
        }
    }
}
