//! The new indexes of texts that were met.
ghost use Rattle.std.specs.Prelude.{◌≡◌, ◌<◌, get_or, length, replicate, IfOk};
ghost use Rattle.dj_rename.specs.declared.wanted.Role.{Role};
ghost use Rattle.dj_rename.specs.Renaming.{table, with_known};

use crate::wanted::Role;
use std::alloc::{AllocError, Global};
use std::marker::Model;

/// For each index its text's new index, as the text of a class and as a descriptor; 0 where that isn't known.
#[derive(Drop)]
pub(crate) struct Known {
    classes: Vec<u16>,
    descs: Vec<u16>,
}

impl Model for Known {
    ghost use Rattle.dj_rename.specs.Renaming.{Tables};

    ghost Value = { Tables };

    ghost view = { λ known. record { classes = known.classes.items; descs = known.descs.items } };
}

impl Known {
    /// Nothing is known of this many indexes.
    pub(crate) fn new(alloc: Global, count: usize) -> Result<Known, AllocError>
        ensures { IfOk result (λ known. (role : Role) → table role known ≡ replicate count 0) }
    {
        let classes = vec![in alloc; 0u16; count]?;
        let descs = vec![in alloc; 0u16; count]?;
        Ok(Known { classes, descs })
    }

    /// The new index of a text.
    pub(crate) fn get(&self, role: Role, index: u16) -> u16
        requires { index < length (table role self.now) }
        ensures { result ≡ get_or (table role self.now) index 0 }
    {
        match role {
            Role::Class => self.classes[index as usize],
            Role::Desc => self.descs[index as usize],
        }
    }

    /// From now on this is the new index of a text.
    pub(crate) fn set(&mut self, role: Role, index: u16, new: u16)
        requires { index < length (table role self.old) }
        ensures { self.new ≡ with_known role index new self.old }
    {
        match role {
            Role::Class => self.classes[index as usize] = new,
            Role::Desc => self.descs[index as usize] = new,
        }
    }
}
