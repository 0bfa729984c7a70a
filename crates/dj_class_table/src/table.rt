ghost use Rattle.std.specs.Prelude.{◌≡◌, ℕ, ◌<◌, ◌^◌, false, [], length, map, Some, is_some, IfOk, IfSome, IsErrOf, slice_get};
ghost use Rattle.std.specs.Option.{option_map};
ghost use Rattle.dj_names.specs.trusted.Types.{Name};
ghost use Rattle.dj_names.specs.trusted.Descriptors.{Describes};
ghost use Rattle.dj_model.specs.trusted.Program.{method_in, field_in};
ghost use Rattle.dj_model.specs.trusted.Linking.{count_fields, fields_before};
ghost use Rattle.dj_model.specs.trusted.Libraries.{joined};
ghost use Rattle.dj_declarations.specs.trusted.Files.{desc_in};
ghost use Rattle.dj_declarations.specs.Files.{bare_class};
ghost use Rattle.dj_declarations.specs.trusted.Members.{has_method_named};
ghost use Rattle.dj_declarations.specs.Members.{IsDescriptor, method_flags, method_name, method_has_body, method_native, field_flags, field_name, method_place, field_place};
ghost use Rattle.dj_class_table.specs.Tables.{class_number, name_at, flags_in, unnamed_fields_in, super_number, interface_numbers, lacks_above, methods_at, fields_at, IsShared, IsLeastShared};
ghost use Rattle.dj_class_table.specs.declared.error.TableError.TheVariants.{Duplicate};

use crate::error::TableError;
use crate::numbers::Numbers;
use crate::rows;
use dj_declarations::{DeclaredClass, MemberTexts};
use dj_names::{Name, NativeId};
use std::alloc::Global;
use std::marker::Model;

/// Classes as they are declared, in the order of the bytes of their names. A class's number is its place.
#[derive(Drop)]
pub struct ClassTable {
    rows: Vec<DeclaredClass>,
    supers: Vec<Option<u32>>,
    interfaces: Vec<Numbers>,
}

impl Model for ClassTable {
    ghost use Rattle.dj_model.specs.trusted.Program.{Program};
    ghost use Rattle.dj_class_table.specs.ClassRows.{IsTable};

    ghost Value = { Program };

    ghost view = { λ table. table.rows.items };

    ghost invariant = { λ table. IsTable table.rows.items table.supers.items table.interfaces.items };
}

impl ClassTable {
    /// Puts the classes in order, or reports the least name that two of them have.
    pub fn of(alloc: Global, classes: Vec<DeclaredClass>) -> Result<ClassTable, TableError>
        requires { length classes.items < 2 ^ 31 }
        ensures ok { IfOk result (λ table. table ≡ joined classes.items []) }
        ensures differ { IfOk result (λ _. (name : Name) → IsShared classes.items name → ⊥) }
        ensures refused { (name : Name) → IsErrOf result (Duplicate name) → IsLeastShared classes.items name }
    {
        let mut rows = classes;
        rows::put_in_order(&mut rows);
        if let Some(name) = rows::first_shared(&rows) {
            return Err(TableError::Duplicate(Name::from_slice(alloc, name)?));
        }
        let supers = rows::supers_in(alloc, &rows)?;
        let interfaces = rows::interfaces_in(alloc, &rows)?;
        rows::are_bare(&rows);
        Ok(ClassTable {
            rows,
            supers,
            interfaces,
        })
    }

    /// The number of classes.
    pub fn class_count(&self) -> u32
        ensures count { result ≡ length self.now }
        ensures few { length self.now < 2 ^ 31 }
    {
        self.rows.len() as u32
    }

    /// A law: a name is that of one class at most.
    pub fn names_differ(&self)
        ensures { (k : ℕ) (name : Name) → name_at self.now k ≡ Some name → class_number self.now name ≡ Some k }
    {
        let _ = &self.rows;
    }

    /// A law: there is no code, and there are no constants.
    pub fn are_bare(&self)
        ensures { map bare_class self.now ≡ self.now }
    {
        let _ = &self.rows;
    }

    /// The number of the class of this name.
    pub fn class_named(&self, name: &[u8]) -> Option<u32>
        ensures { result ≡ class_number self.now name.now }
    {
        rows::number_in(&self.rows, name)
    }

    /// The name of the class of this number.
    pub fn name_of(&self, class: u32) -> &[u8]
        requires { class < length self.now }
        ensures { Some result.now ≡ name_at self.now class }
    {
        self.rows[class as usize].name()
    }

    /// The access flags of the class of this number (JVMS table 4.1-A).
    pub fn flags_of(&self, class: u32) -> u16
        requires { class < length self.now }
        ensures { Some result ≡ option_map flags_in (slice_get self.now class) }
    {
        self.rows[class as usize].flags()
    }

    /// The number of the superclass of a class, where it has one that is there.
    pub fn super_of(&self, class: u32) -> Option<u32>
        requires { class < length self.now }
        ensures { result ≡ super_number self.now class }
    {
        self.supers[class as usize]
    }

    /// The numbers of the interfaces that a class lists, of those that are there.
    pub fn interfaces_of(&self, class: u32) -> &[u32]
        requires { class < length self.now }
        ensures { result.now ≡ interface_numbers self.now class }
    {
        self.interfaces[class as usize].as_slice()
    }

    /// Whether the superclass of a class, or an interface that it lists, isn't there.
    pub fn lacks_above(&self, class: u32) -> bool
        requires { class < length self.now }
        ensures { Some result ≡ option_map (lacks_above self.now) (slice_get self.now class) }
    {
        let row = &self.rows[class as usize];
        rows::lacks_super(row, self.supers[class as usize])
            || rows::lacks_interface(row, self.interfaces[class as usize].as_slice())
    }

    /// The place, among the methods of a class, of the first one with this name and this descriptor.
    pub fn method_named(&self, class: u32, name: &[u8], desc: &[u8]) -> Option<u32>
        requires there { class < length self.now }
        requires described { IsDescriptor desc.now }
        ensures found { option_map (slice_get (methods_at self.now class)) result ≡ option_map Some (method_in (methods_at self.now class) name.now (desc_in desc.now)) }
        ensures first { result ≡ method_place (methods_at self.now class) name.now (desc_in desc.now) }
    {
        self.rows[class as usize].method_named(name, desc)
    }

    /// The place, among the fields of a class, of the first one with this name and this descriptor.
    pub fn field_named(&self, class: u32, name: &[u8], desc: &[u8]) -> Option<u32>
        requires there { class < length self.now }
        requires described { IsDescriptor desc.now }
        ensures found { option_map (slice_get (fields_at self.now class)) result ≡ option_map Some (field_in (fields_at self.now class) name.now (desc_in desc.now)) }
        ensures first { result ≡ field_place (fields_at self.now class) name.now (desc_in desc.now) }
    {
        self.rows[class as usize].field_named(name, desc)
    }

    /// The access flags of a method (JVMS table 4.6-A), by its place among those of its class.
    pub fn method_flags(&self, class: u32, member: u32) -> u16
        requires there { class < length self.now }
        requires within { member < length (methods_at self.now class) }
        ensures { Some result ≡ option_map method_flags (slice_get (methods_at self.now class) member) }
    {
        self.rows[class as usize].method_flags(member)
    }

    /// The access flags of a field (JVMS table 4.5-A), by its place among those of its class.
    pub fn field_flags(&self, class: u32, member: u32) -> u16
        requires there { class < length self.now }
        requires within { member < length (fields_at self.now class) }
        ensures { Some result ≡ option_map field_flags (slice_get (fields_at self.now class) member) }
    {
        self.rows[class as usize].field_flags(member)
    }

    /// Whether a class declares a field with a name of its own: of a class of a library only the number of fields is known.
    pub fn has_fields(&self, class: u32) -> bool
        requires { class < length self.now }
        ensures { result ≡ is_some (slice_get (fields_at self.now class) 0) }
    {
        self.rows[class as usize].has_fields()
    }

    /// Whether a class has a method of this name, whatever its descriptor is.
    pub fn has_method(&self, class: u32, name: &[u8]) -> bool
        requires { class < length self.now }
        ensures { result ≡ has_method_named (methods_at self.now class) name.now }
    {
        self.rows[class as usize].has_method(name)
    }

    /// The number of instance fields of a class that only native methods use.
    pub fn unnamed_fields(&self, class: u32) -> u16
        requires { class < length self.now }
        ensures { Some result ≡ option_map unnamed_fields_in (slice_get self.now class) }
    {
        self.rows[class as usize].unnamed_fields()
    }

    /// The number of methods that a class declares.
    pub fn method_count(&self, class: u32) -> usize
        requires { class < length self.now }
        ensures { result ≡ length (methods_at self.now class) }
    {
        self.rows[class as usize].method_count()
    }

    /// The number of fields that a class declares.
    pub fn field_count(&self, class: u32) -> usize
        requires { class < length self.now }
        ensures { result ≡ length (fields_at self.now class) }
    {
        self.rows[class as usize].field_count()
    }

    /// The name of a method, by its place among those of its class.
    pub fn method_name(&self, class: u32, member: u32) -> &[u8]
        requires there { class < length self.now }
        requires within { member < length (methods_at self.now class) }
        ensures { Some result.now ≡ option_map method_name (slice_get (methods_at self.now class) member) }
    {
        self.rows[class as usize].method_name(member)
    }

    /// The text of the descriptor of a method, by its place among those of its class.
    pub fn method_desc(&self, class: u32, member: u32) -> &[u8]
        requires there { class < length self.now }
        requires within { member < length (methods_at self.now class) }
        ensures { IfSome (slice_get (methods_at self.now class) member) (λ m. Describes result.now m.desc) }
    {
        self.rows[class as usize].method_desc(member)
    }

    /// The members of a class, and the texts that name them, each once.
    pub fn member_texts(&self, class: u32) -> MemberTexts<'_>
        requires { class < length self.now }
        ensures methods { result.methods ≡ methods_at self.now class }
        ensures fields { result.fields ≡ fields_at self.now class }
    {
        self.rows[class as usize].member_texts()
    }

    /// Whether a method, by its place among those of its class, has code, or a library answers it.
    pub fn method_has_body(&self, class: u32, member: u32) -> bool
        requires there { class < length self.now }
        requires within { member < length (methods_at self.now class) }
        ensures { Some result ≡ option_map method_has_body (slice_get (methods_at self.now class) member) }
    {
        self.rows[class as usize].method_has_body(member)
    }

    /// Which method of the library a method is, by its place among those of its class; none of one with code, and of one with neither.
    pub fn method_native(&self, class: u32, member: u32) -> Option<NativeId>
        requires there { class < length self.now }
        requires within { member < length (methods_at self.now class) }
        ensures { Some result ≡ option_map method_native (slice_get (methods_at self.now class) member) }
    {
        self.rows[class as usize].method_native(member)
    }

    /// The name of a field, by its place among those of its class.
    pub fn field_name(&self, class: u32, member: u32) -> &[u8]
        requires there { class < length self.now }
        requires within { member < length (fields_at self.now class) }
        ensures { Some result.now ≡ option_map field_name (slice_get (fields_at self.now class) member) }
    {
        self.rows[class as usize].field_name(member)
    }

    /// The text of the descriptor of a field, by its place among those of its class.
    pub fn field_desc(&self, class: u32, member: u32) -> &[u8]
        requires there { class < length self.now }
        requires within { member < length (fields_at self.now class) }
        ensures { IfSome (slice_get (fields_at self.now class) member) (λ f. Describes result.now f.desc) }
    {
        self.rows[class as usize].field_desc(member)
    }

    /// How many of the fields that a class declares are instance fields.
    pub fn instance_fields(&self, class: u32) -> u32
        requires { class < length self.now }
        ensures { result ≡ count_fields false (fields_at self.now class) }
    {
        self.rows[class as usize].instance_fields()
    }

    /// How many instance fields of a class come before the first one that has the name and the descriptor of the one at a place.
    pub fn instance_fields_before(&self, class: u32, member: u32) -> u32
        requires there { class < length self.now }
        requires within { member < length (fields_at self.now class) }
        ensures { IfSome (slice_get (fields_at self.now class) member) (λ f. result ≡ fields_before false f.name f.desc (fields_at self.now class)) }
    {
        self.rows[class as usize].instance_fields_before(member)
    }
}
