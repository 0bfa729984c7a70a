//! Members that many classes declare. Marks of these classes, made once, spare each look-up the way through all of them.
ghost use Rattle.std.specs.Prelude.{◌≡◌, ℕ, List, ◌<◌, Contains, length, Some, IfOk, IfSome};
ghost use Rattle.dj_model.specs.trusted.Linking.{is_plain};
ghost use Rattle.dj_declarations.specs.trusted.Files.{desc_in};
ghost use Rattle.dj_declarations.specs.Members.{field_place, method_place};
ghost use Rattle.dj_class_table.specs.Tables.{fields_at, methods_at};
ghost use Rattle.dj_resolution.specs.Chained.{AreMethodChains};
ghost use Rattle.dj_resolution.specs.Marked.{AreMarks};
ghost use Rattle.dj_resolution.specs.Numbered.{AreTexts};
ghost use Rattle.dj_resolution.specs.Numbers.{field_found, method_found};
ghost use Rattle.dj_resolution.specs.Ranked.{AreRanksOf};
ghost use Rattle.dj_resolution.specs.Shared.{AreRankMarks, AreShared, HaveFieldMarks, HavePlainMarks, HaveRankMarks, declares_method};

use crate::chains::Chains;
use crate::costly::are_costly;
use crate::long::are_long;
use crate::ranked::{MOST_ROWS, Ranks};
use crate::sharing::{fields_of, methods_of, plain_methods_of};
use dj_class_table::ClassTable;
use dj_member_index::Directory;
use std::alloc::{AllocError, Global};

/// This many classes that declare a member are looked at one by one.
pub const FEW_ROWS: usize = 64;

/// A member that many classes declare.
#[derive(Drop)]
pub struct MarkedMember {
    /// The number of its name.
    pub name: u32,
    /// The number of its descriptor.
    pub desc: u32,
    /// One of the classes.
    pub class: u32,
    /// The place of the member among those of this class.
    pub member: u32,
    /// The classes as bits.
    pub words: Vec<u64>,
}

/// All members that many classes declare, in the order of the numbers of their texts.
#[derive(Drop)]
pub struct Shared {
    /// Methods with the classes, by their numbers, in which they are neither private nor static.
    pub plain: Vec<MarkedMember>,
    /// Methods with the classes that declare them, by their ranks.
    pub declared: Vec<MarkedMember>,
    /// Fields with the classes that declare them, by their numbers.
    pub fields: Vec<MarkedMember>,
}

// Two numbers as one, which is less where the first is less, or the second of equal first ones.
fn key_of(name: u32, desc: u32) -> u64 {
    (name as u64) << 32 | desc as u64
}

// The member whose texts have these numbers, by halving.
fn marked_in(marked: &[MarkedMember], name: u32, desc: u32) -> Option<&MarkedMember>
    ensures { IfSome result (λ found. Contains marked.now found.now) }
{
    let key = key_of(name, desc);
    let at = marked.partition_point(|one| key_of(one.name, one.desc) < key);
    let found = marked.get(at)?;
    if found.name == name && found.desc == desc {
        Some(found)
    } else {
        None
    }
}

// The marks of a method, if this is the one whose texts have these numbers.
fn marks_of_method<'a>(
    directory: &Directory<'_>,
    marked: &'a MarkedMember,
    name: u32,
    desc: u32,
) -> Option<&'a [u64]>
    requires { marked.now.class < length directory.now.program }
    ensures words { IfSome result (λ words. words.now ≡ marked.now.words.items) }
    ensures own { IfSome result (λ _. (n d : List ℕ) → AreTexts directory.now name desc n d → method_place (methods_at directory.now.program marked.now.class) n (desc_in d) ≡ Some marked.now.member) }
{
    let member = directory.method_in(marked.class, name, desc)?;
    if member == marked.member {
        Some(&marked.words)
    } else {
        None
    }
}

// The marks of a field, if this is the one whose texts have these numbers.
fn marks_of_field<'a>(
    directory: &Directory<'_>,
    marked: &'a MarkedMember,
    name: u32,
    desc: u32,
) -> Option<&'a [u64]>
    requires { marked.now.class < length directory.now.program }
    ensures words { IfSome result (λ words. words.now ≡ marked.now.words.items) }
    ensures own { IfSome result (λ _. (n d : List ℕ) → AreTexts directory.now name desc n d → field_place (fields_at directory.now.program marked.now.class) n (desc_in d) ≡ Some marked.now.member) }
{
    let member = directory.field_in(marked.class, name, desc)?;
    if member == marked.member {
        Some(&marked.words)
    } else {
        None
    }
}

// Whether members are looked up by the numbers of their texts, and among many classes.
fn are_worth_marking(table: &ClassTable, methods: &Chains, fields: &Chains) -> bool
    requires { AreMethodChains table.now methods.now }
{
    table.class_count() <= MOST_ROWS
        && are_long(table, methods, fields)
        && are_costly(table, methods)
}

impl Shared {
    /// Marks the classes, where that is worth it.
    pub fn of(
        alloc: Global,
        table: &ClassTable,
        methods: &Chains,
        fields: &Chains,
        ranks: &Ranks,
    ) -> Result<Shared, AllocError>
        requires methods { AreMethodChains table.now methods.now }
        requires ranks { AreRanksOf table.now ranks.now }
        ensures { IfOk result (AreShared table.now ranks.now.ranks.items) }
    {
        if !are_worth_marking(table, methods, fields) {
            return Ok(Shared {
                plain: Vec::new(alloc),
                declared: Vec::new(alloc),
                fields: Vec::new(alloc),
            });
        }
        let directory = Directory::of(alloc, table)?;
        let plain = plain_methods_of(alloc, &directory)?;
        let declared = methods_of(alloc, &directory, ranks)?;
        let fields = fields_of(alloc, &directory)?;
        Ok(Shared {
            plain,
            declared,
            fields,
        })
    }

    /// Where many classes declare a method of the name and the descriptor of these numbers, those in which it is neither private nor static.
    pub fn plain_marks(&self, directory: &Directory<'_>, name: u32, desc: u32) -> Option<&[u64]>
        requires { HavePlainMarks directory.now.program self.now.plain.items }
        ensures { (n d : List ℕ) → AreTexts directory.now name desc n d → IfSome result (λ words. AreMarks (method_found directory.now.program is_plain n (desc_in d)) (length directory.now.program) words.now) }
    {
        let marked = marked_in(&self.plain, name, desc)?;
        marks_of_method(directory, marked, name, desc)
    }

    /// Where many classes declare a method of the name and the descriptor of these numbers, those by their ranks.
    pub fn declared_marks(
        &self,
        directory: &Directory<'_>,
        ranks: &Ranks,
        name: u32,
        desc: u32,
    ) -> Option<&[u64]>
        requires { HaveRankMarks directory.now.program ranks.now.ranks.items self.now.declared.items }
        ensures { (n d : List ℕ) → AreTexts directory.now name desc n d → IfSome result (λ words. AreRankMarks (declares_method directory.now.program n (desc_in d)) ranks.now.ranks.items (length directory.now.program) words.now) }
    {
        let _ = ranks;
        let marked = marked_in(&self.declared, name, desc)?;
        marks_of_method(directory, marked, name, desc)
    }

    /// Where many classes declare a field of the name and the descriptor of these numbers, those classes.
    pub fn field_marks(&self, directory: &Directory<'_>, name: u32, desc: u32) -> Option<&[u64]>
        requires { HaveFieldMarks directory.now.program self.now.fields.items }
        ensures { (n d : List ℕ) → AreTexts directory.now name desc n d → IfSome result (λ words. AreMarks (field_found directory.now.program n (desc_in d)) (length directory.now.program) words.now) }
    {
        let marked = marked_in(&self.fields, name, desc)?;
        marks_of_field(directory, marked, name, desc)
    }
}
