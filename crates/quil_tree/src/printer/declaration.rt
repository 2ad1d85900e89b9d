//! The text of a declaration, behind another text.

ghost use Rattle.std.specs.Prelude.{◌≡◌, ◌++◌, codes, OnOk};
ghost use Rattle.std.specs.List.{flat_map};
ghost use Rattle.quil_tree.specs.Printed.{declaration_text, offset_text, offsets_text, sharing_text, type_text};

use crate::expr::Whole;
use crate::item::{Declaration, Offset, Sharing, TypeName};
use crate::printer::word;
use std::alloc::AllocError;

pub(crate) fn push_declaration(
    text: &mut Vec<u8>,
    declaration: &Declaration,
) -> Result<(), AllocError>
    ensures { OnOk result (text.new.items ≡ text.old.items ++ declaration_text declaration.now) }
{
    text.extend_from_slice(b"DECLARE ")?;
    text.extend_from_slice(declaration.name.text.as_bytes())?;
    push_type(text, declaration.kind, &declaration.length)?;
    push_sharing(text, &declaration.sharing)
}

// A type, with the number of cells.
fn push_type(text: &mut Vec<u8>, kind: TypeName, length: &Whole) -> Result<(), AllocError>
    ensures { OnOk result (text.new.items ≡ text.old.items ++ (codes " " ++ type_text kind ++ codes "[" ++ length.now.digits ++ codes "]")) }
{
    text.extend_from_slice(b" ")?;
    text.extend_from_slice(word::type_name(kind))?;
    text.extend_from_slice(b"[")?;
    text.extend_from_slice(length.digits.as_bytes())?;
    text.extend_from_slice(b"]")
}

fn push_sharing(text: &mut Vec<u8>, sharing: &Option<Sharing>) -> Result<(), AllocError>
    ensures { OnOk result (text.new.items ≡ text.old.items ++ sharing_text sharing.now) }
{
    if let Some(sharing) = sharing {
        text.extend_from_slice(b" SHARING ")?;
        text.extend_from_slice(sharing.base.text.as_bytes())?;
        push_offsets(text, sharing.offsets.as_slice())?;
    }
    Ok(())
}

fn push_offsets(text: &mut Vec<u8>, offsets: &[Offset]) -> Result<(), AllocError>
    ensures { OnOk result (text.new.items ≡ text.old.items ++ offsets_text offsets.now) }
{
    if let [first, rest @ ..] = offsets {
        text.extend_from_slice(b" OFFSET")?;
        push_offset(text, first)?;
        push_more_offsets(text, rest)?;
    }
    Ok(())
}

fn push_more_offsets(text: &mut Vec<u8>, mut offsets: &[Offset]) -> Result<(), AllocError>
    ensures { OnOk result (text.new.items ≡ text.old.items ++ flat_map offset_text offsets.entry.now) }
{
    while let [offset, rest @ ..] = offsets {
        push_offset(text, offset)?;
        offsets = rest;
    }
    Ok(())
}

fn push_offset(text: &mut Vec<u8>, offset: &Offset) -> Result<(), AllocError>
    ensures { OnOk result (text.new.items ≡ text.old.items ++ offset_text offset.now) }
{
    text.extend_from_slice(b" ")?;
    text.extend_from_slice(offset.count.digits.as_bytes())?;
    text.extend_from_slice(b" ")?;
    text.extend_from_slice(word::type_name(offset.kind))
}
