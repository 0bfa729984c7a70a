ghost use Rattle.std.specs.Prelude.{◌≡◌, [], ◌∷◌, ◌++◌, map, OnOk, OnErr};
ghost use Rattle.dj_class.specs.Parts.{attribute_of};
ghost use Rattle.dj_class.specs.Members.{member_of};

use crate::class::{Attribute, MemberView};
use std::alloc::{AllocError, Global};
use std::marker::Model;

/// The attributes of a file, a field, a method or a Code attribute.
#[derive(Debug, Drop)]
pub struct Attributes<'a> {
    items: Vec<Attribute<'a>>,
}

impl<'a> Model for Attributes<'a> {
    ghost use Rattle.std.specs.Prelude.{List, map};
    ghost use Rattle.dj_class.specs.trusted.ClassFile.{AttributeInfo};
    ghost use Rattle.dj_class.specs.Parts.{attribute_of};

    ghost Value = { List AttributeInfo };

    ghost view = { λ attributes. map attribute_of attributes.items.items };
}

impl<'a> Attributes<'a> {
    /// No attributes.
    pub fn new(alloc: Global) -> Attributes<'a>
        ensures { result ≡ [] }
    {
        Attributes {
            items: Vec::new(alloc),
        }
    }

    /// Appends an attribute.
    pub fn push(&mut self, item: Attribute<'a>) -> Result<(), AllocError>
        ensures ok { OnOk result (self.new ≡ self.old ++ attribute_of item.entry ∷ []) }
        ensures err { OnErr result (self.new ≡ self.old) }
    {
        Ok(self.items.push(item)?)
    }

    pub(crate) fn from_vec(items: Vec<Attribute<'a>>) -> Attributes<'a>
        ensures { result ≡ map attribute_of items.entry.items }
    {
        Attributes { items }
    }

    /// The attributes, borrowed.
    pub fn as_slice(&self) -> &[Attribute<'a>]
        ensures { map attribute_of result.now ≡ self.now }
    {
        self.items.as_slice()
    }
}

/// The fields or the methods of a file.
#[derive(Debug, Drop)]
pub struct Members<'a> {
    items: Vec<MemberView<'a>>,
}

impl<'a> Model for Members<'a> {
    ghost use Rattle.std.specs.Prelude.{List, map};
    ghost use Rattle.dj_class.specs.trusted.ClassFile.{MemberInfo};
    ghost use Rattle.dj_class.specs.Members.{member_of};

    ghost Value = { List MemberInfo };

    ghost view = { λ members. map member_of members.items.items };
}

impl<'a> Members<'a> {
    /// No members.
    pub fn new(alloc: Global) -> Members<'a>
        ensures { result ≡ [] }
    {
        Members {
            items: Vec::new(alloc),
        }
    }

    /// Appends a member.
    pub fn push(&mut self, item: MemberView<'a>) -> Result<(), AllocError>
        ensures ok { OnOk result (self.new ≡ self.old ++ member_of item.entry ∷ []) }
        ensures err { OnErr result (self.new ≡ self.old) }
    {
        Ok(self.items.push(item)?)
    }

    pub(crate) fn from_vec(items: Vec<MemberView<'a>>) -> Members<'a>
        ensures { result ≡ map member_of items.entry.items }
    {
        Members { items }
    }

    /// The members, borrowed.
    pub fn as_slice(&self) -> &[MemberView<'a>]
        ensures { map member_of result.now ≡ self.now }
    {
        self.items.as_slice()
    }
}
