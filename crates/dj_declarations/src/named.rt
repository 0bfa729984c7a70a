//! The texts that name the members of a class, by their numbers in it.
ghost use Rattle.std.specs.Prelude.{◌≡◌, ◌<◌, length, IfSome, slice_get};
ghost use Rattle.dj_declarations.specs.Texts.{text_in};
ghost use Rattle.dj_declarations.specs.Named.{IsNamedBy};

use crate::tables::ClassMembers;
use std::marker::Model;

/// The members of a class, and the texts that name them, each once.
#[derive(Drop)]
pub struct MemberTexts<'a> {
    pub(crate) members: &'a ClassMembers,
}

impl<'a> Model for MemberTexts<'a> {
    ghost use Rattle.dj_declarations.specs.Named.{NamedMembers};
    ghost use Rattle.dj_declarations.specs.Tables.{methods_of, fields_of};

    ghost Value = { NamedMembers };

    ghost view = { λ texts. record {
      texts = texts.members.now.texts;
      fields = fields_of texts.members.now;
      methods = methods_of texts.members.now;
    } };
}

impl<'a> MemberTexts<'a> {
    /// How many texts there are.
    pub fn count(&self) -> usize
        ensures { result ≡ length self.now.texts }
    {
        self.members.texts.count()
    }

    /// The text of a number.
    pub fn text(&self, number: usize) -> &'a [u8]
        requires { number < length self.now.texts }
        ensures { result.now ≡ text_in self.now.texts number }
    {
        self.members.texts.at(number)
    }

    /// The number of methods.
    pub fn method_count(&self) -> usize
        ensures { result ≡ length self.now.methods }
    {
        self.members.method_count()
    }

    /// The number of fields.
    pub fn field_count(&self) -> usize
        ensures { result ≡ length self.now.fields }
    {
        self.members.field_count()
    }

    /// The numbers of the name and the descriptor of the method at a place.
    pub fn method(&self, place: u32) -> (u16, u16)
        requires { place < length self.now.methods }
        ensures { IfSome (slice_get self.now.methods place) (λ m. IsNamedBy self.now.texts m.name m.desc result.0 result.1) }
    {
        self.members.method_texts(place)
    }

    /// The numbers of the name and the descriptor of the field at a place.
    pub fn field(&self, place: u32) -> (u16, u16)
        requires { place < length self.now.fields }
        ensures { IfSome (slice_get self.now.fields place) (λ f. IsNamedBy self.now.texts f.name f.desc result.0 result.1) }
    {
        self.members.field_texts(place)
    }
}
