//! The layout of declarations.

ghost use Rattle.quil_memory.specs.Layout.{Gives, no_regions, with_claims};

use crate::claim::Claim;
use crate::fault::LayoutFault;
use crate::regions::Layout;
use std::alloc::Global;

/// The layout of these declarations, or the first fault of the first one that has one.
pub fn layout(alloc: Global, mut claims: &[Claim]) -> Result<Layout, LayoutFault>
    ensures { Gives result (with_claims no_regions claims.entry.now) }
{
    let mut layout = Layout::new(alloc);
    while let [claim, rest @ ..] = claims {
        layout = layout.declare(alloc, claim)?;
        claims = rest;
    }
    Ok(layout)
}
