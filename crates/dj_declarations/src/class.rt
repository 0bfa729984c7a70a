ghost use Rattle.std.specs.Prelude.{◌≡◌, ◌<◌, false, length, map, Some, is_some, IfSome, IfOk, All, slice_get};
ghost use Rattle.std.specs.Option.{option_map};
ghost use Rattle.dj_names.specs.trusted.Descriptors.{IsDesc, Describes};
ghost use Rattle.dj_class.specs.trusted.ClassFile.{IsValid};
ghost use Rattle.dj_class.specs.Views.{class_of};
ghost use Rattle.dj_library_types.specs.Views.{library_class_view};
ghost use Rattle.dj_model.specs.trusted.Program.{method_in, field_in};
ghost use Rattle.dj_model.specs.trusted.Linking.{count_fields, fields_before};
ghost use Rattle.dj_model.specs.trusted.Libraries.{library_class};
ghost use Rattle.dj_declarations.specs.trusted.Files.{desc_in, declared_class};
ghost use Rattle.dj_declarations.specs.Files.{bare_class};
ghost use Rattle.dj_declarations.specs.trusted.Members.{has_method_named};
ghost use Rattle.dj_declarations.specs.Members.{IsDescriptor, method_flags, method_name, method_has_body, method_native, field_flags, field_name, method_place, field_place};

use crate::error::DeclareError;
use crate::file::file_members;
use crate::heads::{class_name, class_name_if, copied_name};
use crate::library::library_members;
use crate::listed::{ListedNames, class_names, copied_names};
use crate::named::MemberTexts;
use crate::tables::ClassMembers;
use dj_class::ClassView;
use dj_library_types::LibClass;
use dj_names::{Name, NativeId};
use std::alloc::Global;
use std::marker::Model;

/// A class as it is declared.
#[derive(Drop)]
pub struct DeclaredClass {
    name: Name,
    flags: u16,
    superclass: Option<Name>,
    interfaces: ListedNames,
    unnamed_fields: u16,
    members: ClassMembers,
}

impl Model for DeclaredClass {
    ghost use Rattle.dj_model.specs.trusted.Program.{Class};
    ghost use Rattle.dj_declarations.specs.Lists.{listed_at};
    ghost use Rattle.dj_declarations.specs.Tables.{methods_of, fields_of};

    ghost Value = { Class };

    ghost view = { λ class. record {
      name = class.name;
      flags = class.flags;
      superclass = class.superclass;
      interfaces = listed_at class.interfaces.names class.interfaces.places.items;
      unnamed_fields = class.unnamed_fields;
      fields = fields_of class.members;
      methods = methods_of class.members;
    } };
}

/// The class that a class file declares.
#[tactic(auto, unfolding(crate::specs::trusted::Files::declared_class))]
pub fn declare_file(alloc: Global, view: &ClassView<'_>) -> Result<DeclaredClass, DeclareError>
    requires { IsValid (class_of view.now) }
    ensures { IfOk result (λ class. class ≡ declared_class (class_of view.now)) }
{
    Ok(DeclaredClass {
        name: class_name(alloc, &view.pool, view.this_class)?,
        flags: view.flags,
        superclass: class_name_if(alloc, &view.pool, view.super_class)?,
        interfaces: class_names(alloc, &view.pool, view.interfaces.as_slice())?,
        unnamed_fields: 0,
        members: file_members(alloc, view)?,
    })
}

/// The class of a library.
pub fn declare_library_class(alloc: Global, class: &LibClass) -> Result<DeclaredClass, DeclareError>
    requires { All (λ m. IsDesc m.desc) class.now.methods }
    ensures { IfOk result (λ declared. declared ≡ library_class (library_class_view class.now)) }
{
    Ok(DeclaredClass {
        name: Name::from_slice(alloc, class.name.as_slice())?,
        flags: class.flags,
        superclass: copied_name(alloc, &class.super_name)?,
        interfaces: copied_names(alloc, class.interfaces.as_slice())?,
        unnamed_fields: class.fields,
        members: library_members(alloc, class.methods.as_slice())?,
    })
}

impl DeclaredClass {
    /// A law: there is no code, and there are no constants.
    pub fn is_bare(&self)
        ensures { bare_class self.now ≡ self.now }
    {
        let _ = &self.members;
    }

    /// The name.
    pub fn name(&self) -> &[u8]
        ensures { result.now ≡ self.now.name }
    {
        self.name.as_slice()
    }

    /// The access flags (JVMS table 4.1-A).
    pub fn flags(&self) -> u16
        ensures { result ≡ self.now.flags }
    {
        self.flags
    }

    /// The name of the superclass.
    pub fn superclass(&self) -> Option<&[u8]>
        ensures { option_map (λ name. name.now) result ≡ self.now.superclass }
    {
        match &self.superclass {
            Some(name) => Some(name.as_slice()),
            None => None,
        }
    }

    /// The names of the interfaces that the class lists, and for each one that it lists, in order, the place of its name among these. Of a text in the pool of a class file there is one name at most, however often it is listed.
    pub fn interfaces(&self) -> (&[Name], &[u32])
        ensures { map (slice_get result.0.now) result.1.now ≡ map Some self.now.interfaces }
    {
        (
            self.interfaces.names.as_slice(),
            self.interfaces.places.as_slice(),
        )
    }

    /// The place, among the methods, of the first one with this name and this descriptor.
    pub fn method_named(&self, name: &[u8], desc: &[u8]) -> Option<u32>
        requires { IsDescriptor desc.now }
        ensures found { option_map (slice_get self.now.methods) result ≡ option_map Some (method_in self.now.methods name.now (desc_in desc.now)) }
        ensures first { result ≡ method_place self.now.methods name.now (desc_in desc.now) }
    {
        self.members.method_named(name, desc)
    }

    /// The place, among the fields, of the first one with this name and this descriptor.
    pub fn field_named(&self, name: &[u8], desc: &[u8]) -> Option<u32>
        requires { IsDescriptor desc.now }
        ensures found { option_map (slice_get self.now.fields) result ≡ option_map Some (field_in self.now.fields name.now (desc_in desc.now)) }
        ensures first { result ≡ field_place self.now.fields name.now (desc_in desc.now) }
    {
        self.members.field_named(name, desc)
    }

    /// The access flags of the method at a place (JVMS table 4.6-A).
    pub fn method_flags(&self, place: u32) -> u16
        requires { place < length self.now.methods }
        ensures { Some result ≡ option_map method_flags (slice_get self.now.methods place) }
    {
        self.members.method_flags(place)
    }

    /// The access flags of the field at a place (JVMS table 4.5-A).
    pub fn field_flags(&self, place: u32) -> u16
        requires { place < length self.now.fields }
        ensures { Some result ≡ option_map field_flags (slice_get self.now.fields place) }
    {
        self.members.field_flags(place)
    }

    /// Whether the class declares a field with a name of its own.
    pub fn has_fields(&self) -> bool
        ensures { result ≡ is_some (slice_get self.now.fields 0) }
    {
        self.members.has_fields()
    }

    /// Whether a method has this name, whatever its descriptor is.
    pub fn has_method(&self, name: &[u8]) -> bool
        ensures { result ≡ has_method_named self.now.methods name.now }
    {
        self.members.has_method(name)
    }

    /// The number of instance fields that only native methods use.
    pub fn unnamed_fields(&self) -> u16
        ensures { result ≡ self.now.unnamed_fields }
    {
        self.unnamed_fields
    }

    /// The number of methods.
    pub fn method_count(&self) -> usize
        ensures { result ≡ length self.now.methods }
    {
        self.members.method_count()
    }

    /// The number of fields.
    pub fn field_count(&self) -> usize
        ensures { result ≡ length self.now.fields }
    {
        self.members.field_count()
    }

    /// The name of the method at a place.
    pub fn method_name(&self, place: u32) -> &[u8]
        requires { place < length self.now.methods }
        ensures { Some result.now ≡ option_map method_name (slice_get self.now.methods place) }
    {
        self.members.method_name(place)
    }

    /// The text of the descriptor of the method at a place.
    pub fn method_desc(&self, place: u32) -> &[u8]
        requires { place < length self.now.methods }
        ensures { IfSome (slice_get self.now.methods place) (λ m. Describes result.now m.desc) }
    {
        self.members.method_desc(place)
    }

    /// Whether the method at a place has code, or a library answers it.
    pub fn method_has_body(&self, place: u32) -> bool
        requires { place < length self.now.methods }
        ensures { Some result ≡ option_map method_has_body (slice_get self.now.methods place) }
    {
        self.members.method_has_body(place)
    }

    /// Which method of the library the method at a place is; none of one with code, and of one with neither.
    pub fn method_native(&self, place: u32) -> Option<NativeId>
        requires { place < length self.now.methods }
        ensures { Some result ≡ option_map method_native (slice_get self.now.methods place) }
    {
        self.members.method_native(place)
    }

    /// The name of the field at a place.
    pub fn field_name(&self, place: u32) -> &[u8]
        requires { place < length self.now.fields }
        ensures { Some result.now ≡ option_map field_name (slice_get self.now.fields place) }
    {
        self.members.field_name(place)
    }

    /// The text of the descriptor of the field at a place.
    pub fn field_desc(&self, place: u32) -> &[u8]
        requires { place < length self.now.fields }
        ensures { IfSome (slice_get self.now.fields place) (λ f. Describes result.now f.desc) }
    {
        self.members.field_desc(place)
    }

    /// The members, and the texts that name them, each once.
    pub fn member_texts(&self) -> MemberTexts<'_>
        ensures methods { result.methods ≡ self.now.methods }
        ensures fields { result.fields ≡ self.now.fields }
    {
        MemberTexts {
            members: &self.members,
        }
    }

    /// How many of the fields are instance fields.
    pub fn instance_fields(&self) -> u32
        ensures { result ≡ count_fields false self.now.fields }
    {
        self.members.instance_fields()
    }

    /// How many instance fields come before the first field that has the name and the descriptor of the one at a place.
    pub fn instance_fields_before(&self, place: u32) -> u32
        requires { place < length self.now.fields }
        ensures { IfSome (slice_get self.now.fields place) (λ f. result ≡ fields_before false f.name f.desc self.now.fields) }
    {
        self.members.instance_fields_before(place)
    }
}
