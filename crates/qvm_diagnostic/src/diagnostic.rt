//! Diagnostics, and their text.

ghost use Rattle.std.specs.Prelude.{◌≡◌, ◌≤◌, ◌++◌, length, map, OnOk};
ghost use Rattle.std.specs.List.{flat_map};
ghost use Rattle.qvm_diagnostic.specs.Report.{value_text, detail_text};
ghost use Rattle.qvm_diagnostic.specs.Seen.{value_of};

use crate::detail::Detail;
use arrayvec::ArrayVec;
use std::alloc::{AllocError, Global};
use std::marker::Model;

/// What a refusal or a fault says. It borrows its words and takes no memory.
#[derive(Drop)]
pub struct Diagnostic<'a> {
    code: u16,
    name: &'static str,
    details: ArrayVec<(&'static str, Detail<'a>), 4>,
}

impl<'a> Model for Diagnostic<'a> {
    ghost use Rattle.std.specs.Prelude.{map, IsTrue};
    ghost use Rattle.qvm_diagnostic.specs.Report.{Report, keys_rise};
    ghost use Rattle.qvm_diagnostic.specs.Seen.{value_of};

    ghost Value = { Report };

    ghost view = { λ d. record { code = d.code; name = d.name.now; details = map (λ m. (m.0.now, value_of m.1)) d.details.items } };

    ghost invariant = { λ d. IsTrue (keys_rise (map (λ m. (m.0.now, value_of m.1)) d.details.items)) };
}

impl<'a> Diagnostic<'a> {
    ghost use Rattle.std.specs.Prelude.{◌≡◌, ◌≤◌, ◌++◌, length, map, IsTrue, OnOk};
    ghost use Rattle.qvm_diagnostic.specs.Report.{Report, keys_rise, text_of};
    ghost use Rattle.qvm_diagnostic.specs.Seen.{value_of};

    /// A diagnostic of these details, at most four, in alphabetical order of their keys.
    pub fn new(
        code: u16,
        name: &'static str,
        details: &[(&'static str, Detail<'a>)],
    ) -> Diagnostic<'a>
        requires few { length details.now ≤ 4 }
        requires rising { IsTrue (keys_rise (map (λ m. (m.0.now, value_of m.1)) details.now)) }
        ensures { result ≡ record { code = code; name = name.now; details = map (λ m. (m.0.now, value_of m.1)) details.now } }
    {
        let details = kept(details);
        Diagnostic {
            code,
            name,
            details,
        }
    }

    /// Its number, by which programs know it.
    pub fn code(&self) -> u16
        ensures { result ≡ self.now.code }
    {
        self.code
    }

    /// Its name.
    pub fn name(&self) -> &'static str
        ensures { result.now ≡ self.now.name }
    {
        self.name
    }

    /// The keys with their values.
    pub fn details(&self) -> &[(&'static str, Detail<'a>)]
        ensures value { map (λ m. (m.0.now, value_of m.1)) result.now ≡ self.now.details }
        ensures rising { IsTrue (keys_rise self.now.details) }
    {
        self.details.as_slice()
    }

    #[tactic(auto, using(std::proofs::lemmas::Grind::common_steps, crate::proofs::Details::details_text))]
    /// Adds the text to `text`: the code, the name, and ` key=value` for each detail.
    pub fn push_text(&self, alloc: Global, text: &mut Vec<u8>) -> Result<(), AllocError>
        ensures { OnOk result (text.new.items ≡ text.old.items ++ text_of self.now) }
    {
        let front = format!(in alloc; "{} {}", self.code, self.name)?;
        text.extend_from_slice(front.as_bytes())?;
        push_details(alloc, text, self.details.as_slice())?;
        Ok(())
    }
}

// The details in a list of fixed room.
fn kept<'a>(details: &[(&'static str, Detail<'a>)]) -> ArrayVec<(&'static str, Detail<'a>), 4>
    requires { length details.now ≤ 4 }
    ensures { result.items ≡ details.now }
{
    let mut list = ArrayVec::new();
    for detail in details {
        list.push(*detail);
    }
    list
}

fn push_value(alloc: Global, text: &mut Vec<u8>, value: Detail<'_>) -> Result<(), AllocError>
    ensures { OnOk result (text.new.items ≡ text.old.items ++ value_text (value_of value.entry)) }
{
    match value {
        Detail::Count(number) => {
            let digits = format!(in alloc; "{number}")?;
            text.extend_from_slice(digits.as_bytes())?;
            Ok(())
        }
        Detail::Signed(number) => {
            let digits = format!(in alloc; "{number}")?;
            text.extend_from_slice(digits.as_bytes())?;
            Ok(())
        }
        Detail::Word(word) => {
            text.extend_from_slice(word)?;
            Ok(())
        }
    }
}

fn push_detail(
    alloc: Global,
    text: &mut Vec<u8>,
    detail: &(&'static str, Detail<'_>),
) -> Result<(), AllocError>
    ensures { OnOk result (text.new.items ≡ text.old.items ++ detail_text (detail.now.0.now, value_of detail.now.1)) }
{
    let (key, value) = *detail;
    text.push(b' ')?;
    text.extend_from_slice(key.as_bytes())?;
    text.push(b'=')?;
    push_value(alloc, text, value)?;
    Ok(())
}

fn push_details(
    alloc: Global,
    text: &mut Vec<u8>,
    details: &[(&'static str, Detail<'_>)],
) -> Result<(), AllocError>
    ensures { OnOk result (text.new.items ≡ text.old.items ++ flat_map (λ m. detail_text (m.0.now, value_of m.1)) details.now) }
{
    for detail in details {
        push_detail(alloc, text, detail)?;
    }
    Ok(())
}
