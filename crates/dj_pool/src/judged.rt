ghost use Rattle.std.specs.Prelude.{◌≡◌, ◌+◌, ◌^◌, ◌<◌, length, map, option_map, IfOk};
ghost use Rattle.dj_cursor.specs.Steps.{Gives};
ghost use Rattle.dj_cursor.specs.Views.{cursor_of};
ghost use Rattle.dj_names.specs.Tests.{unqualified_name_test, method_name_test, field_descriptor_test, method_descriptor_test};
ghost use Rattle.dj_pool.specs.trusted.Pool.{constant_at};
ghost use Rattle.dj_pool.specs.Views.{constant_of};
ghost use Rattle.dj_pool.specs.Memory.{pool_is_memory};
ghost use Rattle.dj_pool.specs.Tests.{class_text_test, kinds_of, text_passes, is_text, is_class, is_any_class, is_member, desc_passes, are_names, is_linked, is_fit};
ghost use Rattle.dj_pool.specs.Reading.{first_unlinked, linked_slots_at, pool_at};

use crate::entries::is_wide;
use crate::kinds::{TextKinds, kinds_of_entries};
use crate::pool::{Entry, Pool, PoolError};
use crate::read::read_slots;
use dj_cursor::Cursor;
use std::alloc::{AllocError, Global};
use std::marker::Model;

/// A pool, each text of which was looked at once: what a text is, is kept beside it, by its index.
#[derive(Debug, Drop)]
pub struct JudgedPool<'a> {
    pool: Pool<'a>,
    kinds: Vec<TextKinds>,
}

impl<'a> Model for JudgedPool<'a> {
    ghost use Rattle.std.specs.Prelude.{◌≡◌, List, map};
    ghost use Rattle.dj_pool.specs.trusted.Pool.{Constant};
    ghost use Rattle.dj_pool.specs.Tests.{kinds_of};

    ghost Value = { List Constant };

    ghost view = { λ judged. judged.pool };

    ghost invariant = { λ judged. judged.kinds.items ≡ map kinds_of judged.pool };
}

impl<'a> JudgedPool<'a> {
    fn judge(alloc: Global, pool: Pool<'a>) -> Result<JudgedPool<'a>, AllocError>
        ensures { IfOk result (λ judged. judged ≡ pool.entry) }
    {
        let kinds = kinds_of_entries(alloc, pool.as_slice())?;
        Ok(JudgedPool { pool, kinds })
    }

    /// The pool alone.
    pub fn into_pool(self) -> Pool<'a>
        ensures { result ≡ self.entry }
    {
        let JudgedPool { pool, kinds: _ } = self;
        pool
    }

    /// What the entry at an index is as a text.
    fn kinds_at(&self, index: u16) -> Option<TextKinds>
        ensures { result ≡ option_map kinds_of (constant_at self.now index) }
    {
        if index == 0 {
            return None;
        }
        let at = (index - 1) as usize;
        if at < self.kinds.len() {
            Some(self.kinds[at])
        } else {
            None
        }
    }

    /// Whether there is a text at the index.
    pub fn names_text(&self, index: u16) -> bool
        ensures { result ≡ is_text self.now index }
    {
        match self.kinds_at(index) {
            Some(kinds) => kinds.text,
            None => false,
        }
    }

    /// Whether there is an unqualified name at the index (JVMS 4.2.2).
    pub fn names_unqualified(&self, index: u16) -> bool
        ensures { result ≡ text_passes unqualified_name_test self.now index }
    {
        match self.kinds_at(index) {
            Some(kinds) => kinds.unqualified_name,
            None => false,
        }
    }

    /// Whether there is a method's name at the index (JVMS 4.2.2).
    pub fn names_method(&self, index: u16) -> bool
        ensures { result ≡ text_passes method_name_test self.now index }
    {
        match self.kinds_at(index) {
            Some(kinds) => kinds.method_name,
            None => false,
        }
    }

    /// Whether there is a field's descriptor at the index (JVMS 4.3.2).
    pub fn names_field_descriptor(&self, index: u16) -> bool
        ensures { result ≡ text_passes field_descriptor_test self.now index }
    {
        match self.kinds_at(index) {
            Some(kinds) => kinds.field_descriptor,
            None => false,
        }
    }

    /// Whether there is a method's descriptor at the index (JVMS 4.3.3).
    pub fn names_method_descriptor(&self, index: u16) -> bool
        ensures { result ≡ text_passes method_descriptor_test self.now index }
    {
        match self.kinds_at(index) {
            Some(kinds) => kinds.method_descriptor,
            None => false,
        }
    }

    /// Whether there is a class that is no array at the index (JVMS 4.4.1).
    pub fn names_class(&self, index: u16) -> bool
        ensures { result ≡ is_class self.now index }
    {
        match self.pool.get(index) {
            Some(Entry::Class(name)) => match self.kinds_at(name) {
                Some(kinds) => kinds.class_name,
                None => false,
            },
            _ => false,
        }
    }

    /// Whether there is a text that a class may have at the index (JVMS 4.4.1).
    fn names_class_text(&self, index: u16) -> bool
        ensures { result ≡ text_passes class_text_test self.now index }
    {
        match self.kinds_at(index) {
            Some(kinds) => kinds.class_name || kinds.array_descriptor,
            None => false,
        }
    }

    /// Whether there is a class, or the class of an array, at the index.
    fn names_any_class(&self, index: u16) -> bool
        ensures { result ≡ is_any_class self.now index }
    {
        matches!(self.pool.get(index), Some(Entry::Class(_)))
    }

    /// Whether there is a field or a method at the index.
    fn names_member(&self, index: u16) -> bool
        ensures { result ≡ is_member self.now index }
    {
        matches!(
            self.pool.get(index),
            Some(Entry::Field(_, _) | Entry::Method(_, _) | Entry::InterfaceMethod(_, _))
        )
    }

    /// Whether there is a name with a field's descriptor at the index.
    fn names_field_type(&self, index: u16) -> bool
        ensures { result ≡ desc_passes field_descriptor_test self.now index }
    {
        match self.pool.get(index) {
            Some(Entry::NameAndType(_, desc)) => self.names_field_descriptor(desc),
            _ => false,
        }
    }

    /// Whether there is a name with a method's descriptor at the index.
    fn names_method_type(&self, index: u16) -> bool
        ensures { result ≡ desc_passes method_descriptor_test self.now index }
    {
        match self.pool.get(index) {
            Some(Entry::NameAndType(_, desc)) => self.names_method_descriptor(desc),
            _ => false,
        }
    }

    /// Whether the indexes are those of a field's name and descriptor, or of a method's.
    fn are_names(&self, name: u16, desc: u16) -> bool
        ensures { result ≡ are_names self.now name desc }
    {
        (self.names_unqualified(name) && self.names_field_descriptor(desc))
            || (self.names_method(name) && self.names_method_descriptor(desc))
    }

    /// Whether each index of an entry names what its place requires.
    fn is_linked(&self, entry: Entry<'_>) -> bool
        ensures { result ≡ is_linked self.now (constant_of entry.entry) }
    {
        match entry {
            Entry::Class(name) => self.names_class_text(name),
            Entry::Text(text) => self.names_text(text),
            Entry::Field(class, field) => self.names_any_class(class)
                && self.names_field_type(field),
            Entry::Method(class, method) => self.names_any_class(class)
                && self.names_method_type(method),
            Entry::InterfaceMethod(class, method) => self.names_any_class(class)
                && self.names_method_type(method),
            Entry::NameAndType(name, desc) => self.are_names(name, desc),
            Entry::Handle(_, member) => self.names_member(member),
            Entry::MethodType(desc) => self.names_method_descriptor(desc),
            Entry::Dynamic(_, method) => self.names_method_type(method),
            _ => true,
        }
    }

    /// Whether an entry of this index is linked, and its second index, where it takes two, is one of the pool.
    fn is_fit(&self, index: usize, entry: Entry<'_>) -> bool
        ensures { result ≡ is_fit self.now index (constant_of entry.entry) }
    {
        self.is_linked(entry) && !(is_wide(&entry) && self.kinds.len() <= index)
    }

    /// The lowest index whose entry does not fit.
    fn find_unlinked(&self) -> Option<u16>
        requires { length self.now < 2 ^ 16 }
        ensures { result ≡ first_unlinked self.now 1 self.now }
    {
        for (i, entry) in self.pool.as_slice().iter().enumerate() {
            if !self.is_fit(i + 1, *entry) {
                return Some((i + 1) as u16);
            }
        }
        None
    }
}

#[tactic(auto, unfolding(crate::specs::Reading::linked_slots_at))]
fn read_linked<'a>(
    alloc: Global,
    count: u16,
    cursor: Cursor<'a>,
) -> Result<(JudgedPool<'a>, Cursor<'a>), PoolError>
    ensures { Gives pool_is_memory (λ x. (x.0, cursor_of x.1)) result
        (linked_slots_at count (cursor_of cursor.entry)) }
{
    let (entries, after) = read_slots(alloc, count, cursor)?;
    let judged = JudgedPool::judge(alloc, Pool { entries })?;
    match judged.find_unlinked() {
        None => Ok((judged, after)),
        Some(index) => Err(PoolError::Link(index)),
    }
}

/// The pool whose count is at the cursor, judged, and where the reader is after it.
#[tactic(auto, unfolding(crate::specs::Reading::pool_at))]
pub fn read_judged_pool<'a>(
    alloc: Global,
    cursor: Cursor<'a>,
) -> Result<(JudgedPool<'a>, Cursor<'a>), PoolError>
    ensures { Gives pool_is_memory (λ x. (x.0, cursor_of x.1)) result (pool_at (cursor_of cursor.entry)) }
{
    let (count, after) = cursor.u16_at()?;
    if count == 0 {
        return Err(PoolError::Tag(cursor.place));
    }
    read_linked(alloc, count - 1, after)
}
