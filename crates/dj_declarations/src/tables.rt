//! The members of a class, with the texts that name them.
ghost use Rattle.dj_declarations.specs.MemberRows.{AreSound, AreCounts};

use crate::members::{MemberBody, MemberTable};
use crate::texts::TextTable;
use dj_names::NativeId;

/// The fields and the methods of a class.
#[derive(Drop)]
pub(crate) struct ClassMembers {
    pub(crate) texts: TextTable,
    pub(crate) fields: MemberTable,
    pub(crate) methods: MemberTable,
    // How many instance fields come before each place, and before the end.
    pub(crate) counts: Vec<u32>,
    ghost sound: { AreSound texts fields.rows.items methods.rows.items },
    ghost counted: { AreCounts fields.rows.items counts.items },
}

impl ClassMembers {
    ghost use Rattle.std.specs.Prelude.{◌≡◌, ◌<◌, false, length, Some, is_some, IfSome, slice_get};
    ghost use Rattle.std.specs.Option.{option_map};
    ghost use Rattle.dj_names.specs.trusted.Descriptors.{Describes};
    ghost use Rattle.dj_model.specs.trusted.Program.{method_in, field_in};
    ghost use Rattle.dj_model.specs.trusted.Linking.{count_fields, fields_before};
    ghost use Rattle.dj_declarations.specs.trusted.Files.{desc_in};
    ghost use Rattle.dj_declarations.specs.trusted.Members.{has_method_named};
    ghost use Rattle.dj_declarations.specs.Members.{IsDescriptor, method_flags, method_name, method_has_body, method_native, field_flags, field_name, method_place, field_place};
    ghost use Rattle.dj_declarations.specs.Named.{IsNamedBy};
    ghost use Rattle.dj_declarations.specs.Tables.{methods_of, fields_of};

    /// The place of the first method with this name and this descriptor.
    pub(crate) fn method_named(&self, name: &[u8], desc: &[u8]) -> Option<u32>
        requires { IsDescriptor desc.now }
        ensures found { option_map (slice_get (methods_of self.now)) result ≡ option_map Some (method_in (methods_of self.now) name.now (desc_in desc.now)) }
        ensures first { result ≡ method_place (methods_of self.now) name.now (desc_in desc.now) }
    {
        self.methods.find_named(&self.texts, name, desc)
    }

    /// The place of the first field with this name and this descriptor.
    pub(crate) fn field_named(&self, name: &[u8], desc: &[u8]) -> Option<u32>
        requires { IsDescriptor desc.now }
        ensures found { option_map (slice_get (fields_of self.now)) result ≡ option_map Some (field_in (fields_of self.now) name.now (desc_in desc.now)) }
        ensures first { result ≡ field_place (fields_of self.now) name.now (desc_in desc.now) }
    {
        self.fields.find_named(&self.texts, name, desc)
    }

    /// The access flags of the method at a place.
    pub(crate) fn method_flags(&self, place: u32) -> u16
        requires { place < length (methods_of self.now) }
        ensures { Some result ≡ option_map method_flags (slice_get (methods_of self.now) place) }
    {
        self.methods.flags(place)
    }

    /// The access flags of the field at a place.
    pub(crate) fn field_flags(&self, place: u32) -> u16
        requires { place < length (fields_of self.now) }
        ensures { Some result ≡ option_map field_flags (slice_get (fields_of self.now) place) }
    {
        self.fields.flags(place)
    }

    /// Whether there is a field.
    pub(crate) fn has_fields(&self) -> bool
        ensures { result ≡ is_some (slice_get (fields_of self.now) 0) }
    {
        self.fields.has_any()
    }

    /// Whether a method has the name.
    pub(crate) fn has_method(&self, name: &[u8]) -> bool
        ensures { result ≡ has_method_named (methods_of self.now) name.now }
    {
        match self.texts.find(name) {
            Some(name) => self.methods.has_name(name),
            None => false,
        }
    }

    /// The number of methods.
    pub(crate) fn method_count(&self) -> usize
        ensures { result ≡ length (methods_of self.now) }
    {
        self.methods.count()
    }

    /// The number of fields.
    pub(crate) fn field_count(&self) -> usize
        ensures { result ≡ length (fields_of self.now) }
    {
        self.fields.count()
    }

    /// The name of the method at a place.
    pub(crate) fn method_name(&self, place: u32) -> &[u8]
        requires { place < length (methods_of self.now) }
        ensures { Some result.now ≡ option_map method_name (slice_get (methods_of self.now) place) }
    {
        self.texts.text(self.methods.row(place).name)
    }

    /// The text of the descriptor of the method at a place.
    pub(crate) fn method_desc(&self, place: u32) -> &[u8]
        requires { place < length (methods_of self.now) }
        ensures { IfSome (slice_get (methods_of self.now) place) (λ m. Describes result.now m.desc) }
    {
        self.texts.text(self.methods.row(place).desc)
    }

    /// The numbers of the name and the descriptor of the method at a place.
    pub(crate) fn method_texts(&self, place: u32) -> (u16, u16)
        requires { place < length (methods_of self.now) }
        ensures { IfSome (slice_get (methods_of self.now) place) (λ m. IsNamedBy self.now.texts m.name m.desc result.0 result.1) }
    {
        let row = self.methods.row(place);
        (row.name, row.desc)
    }

    /// The numbers of the name and the descriptor of the field at a place.
    pub(crate) fn field_texts(&self, place: u32) -> (u16, u16)
        requires { place < length (fields_of self.now) }
        ensures { IfSome (slice_get (fields_of self.now) place) (λ f. IsNamedBy self.now.texts f.name f.desc result.0 result.1) }
    {
        let row = self.fields.row(place);
        (row.name, row.desc)
    }

    /// Whether the method at a place has code, or a library answers it.
    pub(crate) fn method_has_body(&self, place: u32) -> bool
        requires { place < length (methods_of self.now) }
        ensures { Some result ≡ option_map method_has_body (slice_get (methods_of self.now) place) }
    {
        match self.methods.row(place).body {
            MemberBody::Empty => false,
            MemberBody::Native(_) | MemberBody::Code => true,
        }
    }

    /// Which method of the library the method at a place is; none where it has code or is abstract.
    pub(crate) fn method_native(&self, place: u32) -> Option<NativeId>
        requires { place < length (methods_of self.now) }
        ensures { Some result ≡ option_map method_native (slice_get (methods_of self.now) place) }
    {
        match self.methods.row(place).body {
            MemberBody::Native(id) => Some(id),
            MemberBody::Empty | MemberBody::Code => None,
        }
    }

    /// The name of the field at a place.
    pub(crate) fn field_name(&self, place: u32) -> &[u8]
        requires { place < length (fields_of self.now) }
        ensures { Some result.now ≡ option_map field_name (slice_get (fields_of self.now) place) }
    {
        self.texts.text(self.fields.row(place).name)
    }

    /// The text of the descriptor of the field at a place.
    pub(crate) fn field_desc(&self, place: u32) -> &[u8]
        requires { place < length (fields_of self.now) }
        ensures { IfSome (slice_get (fields_of self.now) place) (λ f. Describes result.now f.desc) }
    {
        self.texts.text(self.fields.row(place).desc)
    }

    /// How many of the fields are instance fields.
    pub(crate) fn instance_fields(&self) -> u32
        ensures { result ≡ count_fields false (fields_of self.now) }
    {
        self.counts[self.fields.count()]
    }

    /// How many instance fields come before the first field that has the name and the descriptor of the one at a place.
    pub(crate) fn instance_fields_before(&self, place: u32) -> u32
        requires { place < length (fields_of self.now) }
        ensures { IfSome (slice_get (fields_of self.now) place) (λ f. result ≡ fields_before false f.name f.desc (fields_of self.now)) }
    {
        let row = self.fields.row(place);
        match self.fields.find(row.name, row.desc) {
            Some(first) => self.counts[first as usize],
            None => unreachable!(),
        }
    }
}
