//! Indexes of entries that are in the pool; an index is 0 where the entry isn't in the pool or ends past the greatest index.
ghost use Rattle.std.specs.Prelude.{◌≡◌, IfOk};
ghost use Rattle.dj_names.specs.trusted.ModifiedUtf8.{units_text};
ghost use Rattle.dj_asm_tokens.specs.Views.{string_units_of};
ghost use Rattle.dj_asm_source.specs.TypeViews.{literal_view, value_view};
ghost use Rattle.dj_asm_pool.specs.trusted.Entries as entries;
ghost use Rattle.dj_asm_pool.specs.trusted.Needs.{member_entry, literal_entry, value_entry};
ghost use Rattle.dj_asm_pool.specs.Pooling.{found_index};

use crate::key::Key;
use crate::pool::PoolBuilder;
use dj_asm_source::{Literal, Quoted, Value};
use std::alloc::{AllocError, Global};

impl PoolBuilder {
    /// The index of an int.
    pub fn integer_index(&self, n: i32) -> u16
        ensures { result ≡ found_index self.now (entries.Integer n) }
    {
        self.sought(Key::Integer(n))
    }

    /// The index of a long.
    pub fn long_index(&self, n: i64) -> u16
        ensures { result ≡ found_index self.now (entries.Long n) }
    {
        self.sought(Key::Long(n))
    }

    /// The index of a class.
    pub fn class_index(&self, name: &[u8]) -> u16
        ensures { result ≡ found_index self.now (entries.Class name.now) }
    {
        let text = self.utf8_index(name);
        self.sought(Key::Class(text))
    }

    /// The index of a string.
    pub fn string_index(&self, text: &[u8]) -> u16
        ensures { result ≡ found_index self.now (entries.Text text.now) }
    {
        let index = self.utf8_index(text);
        self.sought(Key::Text(index))
    }

    /// The index of a name and a descriptor.
    pub fn names_index(&self, name: &[u8], desc: &[u8]) -> u16
        ensures { result ≡ found_index self.now (entries.NameAndType name.now desc.now) }
    {
        let first = self.utf8_index(name);
        let second = self.utf8_index(desc);
        self.sought(Key::NameAndType(first, second))
    }

    /// The index of a field.
    pub fn field_index(&self, class: &[u8], name: &[u8], desc: &[u8]) -> u16
        ensures { result ≡ found_index self.now (entries.Field class.now name.now desc.now) }
    {
        let first = self.class_index(class);
        let second = self.names_index(name, desc);
        self.sought(Key::Field(first, second))
    }

    /// The index of a class's method.
    pub fn method_index(&self, class: &[u8], name: &[u8], desc: &[u8]) -> u16
        ensures { result ≡ found_index self.now (entries.Method class.now name.now desc.now) }
    {
        let first = self.class_index(class);
        let second = self.names_index(name, desc);
        self.sought(Key::Method(first, second))
    }

    /// The index of an interface's method.
    pub fn interface_method_index(&self, class: &[u8], name: &[u8], desc: &[u8]) -> u16
        ensures { result ≡ found_index self.now (entries.InterfaceMethod class.now name.now desc.now) }
    {
        let first = self.class_index(class);
        let second = self.names_index(name, desc);
        self.sought(Key::InterfaceMethod(first, second))
    }

    /// The index of a call site.
    pub fn dynamic_index(&self, place: u16, name: &[u8], desc: &[u8]) -> u16
        ensures { result ≡ found_index self.now (entries.Dynamic place name.now desc.now) }
    {
        let names = self.names_index(name, desc);
        self.sought(Key::Dynamic(place, names))
    }

    /// The index of a field or a method, by the opcode and whether `interface` is there.
    pub fn member_index(
        &self,
        op: u8,
        class: &[u8],
        name: &[u8],
        desc: &[u8],
        interface: bool,
    ) -> u16
        ensures { result ≡ found_index self.now (member_entry op class.now name.now desc.now interface) }
    {
        if op <= 181 {
            self.field_index(class, name, desc)
        } else if op == 185 || interface {
            self.interface_method_index(class, name, desc)
        } else {
            self.method_index(class, name, desc)
        }
    }

    /// The index of a string that is written between quotes.
    fn quoted_index(&self, alloc: Global, string: Quoted<'_>) -> Result<u16, AllocError>
        ensures { IfOk result (λ i. i ≡ found_index self.now (entries.Text (units_text (string_units_of string.entry)))) }
    {
        let text = string.text(alloc)?;
        Ok(self.string_index(text.as_slice()))
    }

    /// The index of what ldc pushes.
    pub fn literal_index(&self, alloc: Global, literal: &Literal<'_>) -> Result<u16, AllocError>
        ensures { IfOk result (λ i. i ≡ found_index self.now (literal_entry (literal_view literal.now))) }
    {
        match literal {
            Literal::Int(n) => Ok(self.integer_index(*n)),
            Literal::String(string) => self.quoted_index(alloc, *string),
            Literal::Class(name) => Ok(self.class_index(name.as_slice())),
        }
    }

    /// The index of the constant of a field.
    pub fn value_index(&self, alloc: Global, value: Value<'_>) -> Result<u16, AllocError>
        ensures { IfOk result (λ i. i ≡ found_index self.now (value_entry (value_view value.entry))) }
    {
        match value {
            Value::Int(n) => Ok(self.integer_index(n)),
            Value::Long(n) => Ok(self.long_index(n)),
            Value::String(string) => self.quoted_index(alloc, string),
        }
    }
}
