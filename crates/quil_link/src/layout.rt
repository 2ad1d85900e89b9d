//! The regions that a program declares.

ghost use Rattle.std.specs.Prelude.{◌≡◌, ◌++◌, map, IfOk};
ghost use Rattle.quil_link.specs.Passes.{Loads};
ghost use Rattle.quil_link.specs.Layout.{cell_type_of, offset_of, share_of, claim_of, layout_of};
ghost use Rattle.quil_link.specs.Steps.{with_item};

use quil_code::LoadFault;
use quil_memory::{CellType, Claim, Layout, Name, Offset, Offsets, Share};
use quil_tree::{Declaration, Item, Sharing, TypeName};
use std::alloc::{AllocError, Global};

fn cell_type_of(kind: TypeName) -> CellType
    ensures { result ≡ cell_type_of kind }
{
    match kind {
        TypeName::Bit => CellType::Bit,
        TypeName::Octet => CellType::Octet,
        TypeName::Integer => CellType::Integer,
        TypeName::Real => CellType::Real,
    }
}

fn offsets_of(alloc: Global, parts: &[quil_tree::Offset]) -> Result<Offsets, AllocError>
    ensures { IfOk result (λ o. o ≡ map offset_of parts.now) }
{
    let mut offsets = Offsets::new(alloc);
    for part in parts {
        offsets.push(Offset {
            count: part.count.value,
            kind: cell_type_of(part.kind),
        })?;
    }
    Ok(offsets)
}

fn share_of(alloc: Global, sharing: &Sharing) -> Result<Share, AllocError>
    ensures { IfOk result (λ s. s ≡ share_of sharing.now) }
{
    let base = Name::new(alloc, sharing.base.text.as_bytes())?;
    let offsets = offsets_of(alloc, sharing.offsets.as_slice())?;
    Ok(Share { base, offsets })
}

fn claim_of(alloc: Global, declaration: &Declaration) -> Result<Claim, AllocError>
    ensures { IfOk result (λ c. c ≡ claim_of declaration.now) }
{
    let name = Name::new(alloc, declaration.name.text.as_bytes())?;
    let share = match &declaration.sharing {
        Some(sharing) => Some(share_of(alloc, sharing)?),
        None => None,
    };
    Ok(Claim {
        name,
        kind: cell_type_of(declaration.kind),
        length: declaration.length.value,
        share,
        line: declaration.place.line,
    })
}

// Adds the region of a declaration.
fn with_item(layout: Layout, alloc: Global, item: &Item) -> Result<Layout, LoadFault>
    ensures { Loads result (with_item layout item.now) }
{
    match item {
        Item::Declare(declaration) => {
            let claim = claim_of(alloc, declaration)?;
            Ok(layout.declare(alloc, &claim)?)
        }
        Item::DefGate(_) | Item::DefCircuit(_) | Item::Plain(_) => Ok(layout),
    }
}

/// The layout of the declarations among the items.
pub(crate) fn layout_of(alloc: Global, mut items: &[Item]) -> Result<Layout, LoadFault>
    ensures { Loads result (layout_of items.entry.now) }
{
    let mut layout = Layout::new(alloc);
    while let [item, rest @ ..] = items {
        layout = with_item(layout, alloc, item)?;
        items = rest;
    }
    Ok(layout)
}
