ghost use Rattle.std.specs.Prelude.{◌≡◌, [], ◌∷◌, ◌++◌, map, OnOk, OnErr};

use crate::syntax::FrameType;
use std::alloc::{AllocError, Global};
use std::marker::Model;

/// Types of a frame, in their order.
#[derive(Drop)]
pub struct FrameTypes<'t> {
    items: Vec<FrameType<'t>>,
}

impl<'t> Model for FrameTypes<'t> {
    ghost use Rattle.std.specs.Prelude.{List, map};
    ghost use Rattle.dj_asm_source.specs.trusted.Lines.{FrameType};
    ghost use Rattle.dj_asm_source.specs.TypeViews.{type_view};

    ghost Value = { List FrameType };

    ghost view = { λ types. map type_view types.items.items };
}

impl<'t> FrameTypes<'t> {
    ghost use Rattle.dj_asm_source.specs.TypeViews.{type_view};

    /// No types.
    pub(crate) fn new(alloc: Global) -> FrameTypes<'t>
        ensures { result ≡ [] }
    {
        FrameTypes {
            items: Vec::new(alloc),
        }
    }

    /// The types.
    pub fn as_slice(&self) -> &[FrameType<'t>]
        ensures { map type_view result.now ≡ self.now }
    {
        &self.items
    }

    /// Appends a type.
    pub(crate) fn push(&mut self, ty: FrameType<'t>) -> Result<(), AllocError>
        ensures ok { OnOk result (self.new ≡ self.old ++ type_view ty.entry ∷ []) }
    {
        Ok(self.items.push(ty)?)
    }
}
