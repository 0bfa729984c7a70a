ghost use Rattle.std.specs.Prelude.{◌≡◌, ℕ, ◌<◌, ◌⊎◌, Contains, List, Some, None, length, IfOk, IfSome};
ghost use Rattle.dj_names.specs.declared.descriptor.Desc.{Desc};
ghost use Rattle.dj_names.specs.trusted.Types.{Name};
ghost use Rattle.dj_declarations.specs.trusted.Files.{desc_in};
ghost use Rattle.dj_declarations.specs.Members.{IsDescriptor, method_place, field_place};
ghost use Rattle.dj_class_table.specs.Tables.{methods_at, fields_at};
ghost use Rattle.dj_member_index.specs.Calls.{AreMethods};
ghost use Rattle.dj_member_index.specs.Numberings.{ClassesDiffer, DeclareFields, DeclareMethods, number_of};
ghost use Rattle.dj_member_index.specs.declared.rows.MemberRow.{MemberRow};
ghost use Rattle.dj_member_index.specs.DirectoryRows.{AreInOrder, IsRow, IsThere, RowsDiffer, fields_named, methods_named};

use crate::gather::add_class;
use crate::numbers::number_in;
use crate::rows::{MemberRow, first_rows, place_in, put_in_order, rows_with};
use dj_class_table::ClassTable;
use std::alloc::{AllocError, Global};
use std::collections::BTreeMap;
use std::marker::Model;

/// The texts that name members of the classes of a table, each by a number, and the members by these numbers.
#[derive(Drop)]
pub struct Directory<'a> {
    table: &'a ClassTable,
    numbers: BTreeMap<&'a [u8], u32>,
    methods: Vec<MemberRow>,
    fields: Vec<MemberRow>,
    first_methods: Vec<MemberRow>,
    first_fields: Vec<MemberRow>,
}

impl<'a> Model for Directory<'a> {
    ghost use Rattle.dj_member_index.specs.Numberings.{Numbering};
    ghost use Rattle.dj_member_index.specs.DirectoryRows.{texts_of, IsDirectory};

    ghost Value = { Numbering };

    ghost view = { λ directory. record { program = directory.table.now; texts = texts_of directory.numbers } };

    ghost invariant = { λ directory. IsDirectory directory.table.now directory.numbers directory.methods.items directory.fields.items directory.first_methods.items directory.first_fields.items };
}

impl<'a> Directory<'a> {
    /// Numbers the texts of the members of all classes: a text that is met again keeps its number.
    pub fn of(alloc: Global, table: &'a ClassTable) -> Result<Directory<'a>, AllocError>
        ensures { IfOk result (λ directory. directory.program ≡ table.now) }
    {
        let mut numbers = BTreeMap::new(alloc);
        let mut methods = Vec::new(alloc);
        let mut fields = Vec::new(alloc);
        for class in 0..table.class_count() {
            add_class(alloc, &mut numbers, &mut methods, &mut fields, table, class)?;
        }
        put_in_order(&mut methods);
        put_in_order(&mut fields);
        let first_methods = first_rows(alloc, &methods)?;
        let first_fields = first_rows(alloc, &fields)?;
        Ok(Directory {
            table,
            numbers,
            methods,
            fields,
            first_methods,
            first_fields,
        })
    }

    /// The rows of all methods, in the order of the numbers of their texts, their classes and their places.
    pub fn into_methods(self) -> Vec<MemberRow>
        ensures { AreMethods self.entry.program result.items }
    {
        self.methods
    }

    /// The number of a text, where it is the name or the descriptor of a member.
    pub fn number(&self, text: &[u8]) -> Option<u32>
        ensures { result ≡ number_of self.now text.now }
    {
        number_in(&self.numbers, text)
    }

    /// The classes.
    pub fn classes(&self) -> &'a ClassTable
        ensures { result.now ≡ self.now.program }
    {
        self.table
    }

    /// The place, among the methods of a class, of the first one whose name and descriptor have these numbers.
    pub fn method_in(&self, class: u32, name: u32, desc: u32) -> Option<u32>
        requires { class < length self.now.program }
        ensures first { (n d : List ℕ) → number_of self.now n ≡ Some name → number_of self.now d ≡ Some desc → IsDescriptor d → result ≡ method_place (methods_at self.now.program class) n (desc_in d) }
        ensures within { IfSome result (λ place. place < length (methods_at self.now.program class)) }
    {
        place_in(&self.methods, name, desc, class)
    }

    /// The place, among the fields of a class, of the first one whose name and descriptor have these numbers.
    pub fn field_in(&self, class: u32, name: u32, desc: u32) -> Option<u32>
        requires { class < length self.now.program }
        ensures first { (n d : List ℕ) → number_of self.now n ≡ Some name → number_of self.now d ≡ Some desc → IsDescriptor d → result ≡ field_place (fields_at self.now.program class) n (desc_in d) }
        ensures within { IfSome result (λ place. place < length (fields_at self.now.program class)) }
    {
        place_in(&self.fields, name, desc, class)
    }

    /// The rows of the methods whose name and descriptor have these numbers, of each class the first one alone.
    pub fn methods_of(&self, name: u32, desc: u32) -> &[MemberRow]
        ensures there { (row : MemberRow) → Contains result.now row → row.class < length self.now.program }
        ensures within { (row : MemberRow) → Contains result.now row → row.place < length (methods_at self.now.program row.class) }
        ensures declare { (n d : List ℕ) → number_of self.now n ≡ Some name → number_of self.now d ≡ Some desc → IsDescriptor d → DeclareMethods self.now.program n (desc_in d) result.now }
        ensures once { ClassesDiffer result.now }
    {
        let _ = self.table.class_count();
        rows_with(&self.first_methods, name, desc)
    }

    /// The rows of the fields whose name and descriptor have these numbers, of each class the first one alone.
    pub fn fields_of(&self, name: u32, desc: u32) -> &[MemberRow]
        ensures there { (row : MemberRow) → Contains result.now row → row.class < length self.now.program }
        ensures declare { (n d : List ℕ) → number_of self.now n ≡ Some name → number_of self.now d ≡ Some desc → IsDescriptor d → DeclareFields self.now.program n (desc_in d) result.now }
        ensures once { ClassesDiffer result.now }
    {
        let _ = self.table.class_count();
        rows_with(&self.first_fields, name, desc)
    }

    /// The rows of all methods, of each name, descriptor and class the first one alone, in the order of these.
    pub fn method_rows(&self) -> &[MemberRow]
        ensures there { (row : MemberRow) → Contains result.now row → row.class < length self.now.program }
        ensures named { (row : MemberRow) → Contains result.now row → IsRow (number_of self.now) (methods_named self.now.program) row }
        ensures whole { (class place : ℕ) (name : Name) (desc : Desc) → class < length self.now.program → method_place (methods_at self.now.program class) name desc ≡ Some place → IsThere result.now class place }
        ensures once { RowsDiffer result.now }
        ensures order { AreInOrder result.now }
    {
        &self.first_methods
    }

    /// The rows of all fields, of each name, descriptor and class the first one alone, in the order of these.
    pub fn field_rows(&self) -> &[MemberRow]
        ensures there { (row : MemberRow) → Contains result.now row → row.class < length self.now.program }
        ensures named { (row : MemberRow) → Contains result.now row → IsRow (number_of self.now) (fields_named self.now.program) row }
        ensures whole { (class place : ℕ) (name : Name) (desc : Desc) → class < length self.now.program → field_place (fields_at self.now.program class) name desc ≡ Some place → IsThere result.now class place }
        ensures once { RowsDiffer result.now }
        ensures order { AreInOrder result.now }
    {
        &self.first_fields
    }

    /// A law: a member is named by texts that have numbers.
    pub fn names_all(&self)
        ensures methods { (class : ℕ) (n d : List ℕ) → IsDescriptor d → (number_of self.now n ≡ None) ⊎ (number_of self.now d ≡ None) → method_place (methods_at self.now.program class) n (desc_in d) ≡ None }
        ensures fields { (class : ℕ) (n d : List ℕ) → IsDescriptor d → (number_of self.now n ≡ None) ⊎ (number_of self.now d ≡ None) → field_place (fields_at self.now.program class) n (desc_in d) ≡ None }
    {
        let _ = &self.table;
    }
}
