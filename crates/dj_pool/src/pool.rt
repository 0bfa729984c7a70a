ghost use Rattle.std.specs.Prelude.{◌≡◌, map, option_map, option_copied};
ghost use Rattle.dj_pool.specs.trusted.Pool.{constant_at, text_at, class_name_at, name_and_type_at};
ghost use Rattle.dj_pool.specs.Pool.{member_at};
ghost use Rattle.dj_pool.specs.Views.{constant_of};
ghost use Rattle.dj_pool.specs.declared.pool.PoolError.TheVariants as pool_errors;

use crate::entries::entry_at;
use dj_cursor::Cut;
use std::alloc::{AllocError, AllocFailed};
use std::marker::Model;
use thiserror::Error;

/// A constant of the pool (JVMS 4.4), whose text is a part of the file. An index is one of the pool.
#[derive(Clone, Copy, Debug)]
pub enum Entry<'a> {
    /// A text in modified UTF-8 (JVMS 4.4.7).
    Utf8(&'a [u8]),
    /// An int (JVMS 4.4.4).
    Integer(i32),
    /// A float, by its bits (JVMS 4.4.4).
    Float(u32),
    /// A long (JVMS 4.4.5).
    Long(i64),
    /// A double, by its bits (JVMS 4.4.5).
    Double(u64),
    /// A class, by the index of its text (JVMS 4.4.1).
    Class(u16),
    /// A string, by the index of its text (JVMS 4.4.3).
    Text(u16),
    /// A field, by the indexes of its class and of its name and type (JVMS 4.4.2).
    Field(u16, u16),
    /// A class's method, by the indexes of its class and of its name and type (JVMS 4.4.2).
    Method(u16, u16),
    /// An interface's method, by the indexes of its interface and of its name and type (JVMS 4.4.2).
    InterfaceMethod(u16, u16),
    /// A name and a descriptor, by the indexes of their texts (JVMS 4.4.6).
    NameAndType(u16, u16),
    /// A method handle: its kind, and the index of a field or method (JVMS 4.4.8).
    Handle(u8, u16),
    /// A method type, by the index of its descriptor's text (JVMS 4.4.9).
    MethodType(u16),
    /// A call site: a row of the table of bootstrap methods, and the index of a name and type (JVMS 4.4.10).
    Dynamic(u16, u16),
    /// The index after a long or a double (JVMS 4.4.5).
    Hole,
}

/// Why a pool was not read. A place is an offset in the file.
#[derive(Clone, Copy, Debug, PartialEq, Eq, Error)]
pub enum PoolError {
    /// The item at this place does not fit into the file.
    #[error("the item at {0} does not fit into the file")]
    Cut(u32),
    /// The byte at this place is no tag, or the count at this place is 0.
    #[error("the byte at {0} is no tag, or the count at {0} is 0")]
    Tag(u32),
    /// The constant at this index names something else than its place requires, or its second index is not below the count.
    #[error("constant {0} names none that its place asks for")]
    Link(u16),
    /// The text of this index is not modified UTF-8.
    #[error("text {0} is not modified UTF-8")]
    Text(u16),
    /// There was no memory.
    #[error("out of memory")]
    Memory,
}

impl From<Cut> for PoolError {
    ghost from_gives = { λ cut e. e ≡ pool_errors.Cut cut.0 };

    fn from(cut: Cut) -> PoolError {
        PoolError::Cut(cut.0)
    }
}

impl From<AllocError> for PoolError {
    ghost from_gives = { λ _ e. e ≡ pool_errors.Memory };

    fn from(_e: AllocError) -> PoolError {
        PoolError::Memory
    }
}

impl<T: Drop> From<AllocFailed<T>> for PoolError {
    ghost from_gives = { λ _ e. e ≡ pool_errors.Memory };

    fn from(_e: AllocFailed<T>) -> PoolError {
        PoolError::Memory
    }
}

/// The constants of a file, numbered from 1.
#[derive(Debug, Drop)]
pub struct Pool<'a> {
    pub(crate) entries: Vec<Entry<'a>>,
}

impl<'a> Model for Pool<'a> {
    ghost use Rattle.std.specs.Prelude.{List, map};
    ghost use Rattle.dj_pool.specs.trusted.Pool.{Constant};
    ghost use Rattle.dj_pool.specs.Views.{constant_of};

    ghost Value = { List Constant };

    ghost view = { λ pool. map constant_of pool.entries.items };
}

impl<'a> Pool<'a> {
    /// The constants, borrowed.
    pub fn as_slice(&self) -> &[Entry<'a>]
        ensures { map constant_of result.now ≡ self.now }
    {
        self.entries.as_slice()
    }

    /// The constant of an index.
    pub fn get(&self, index: u16) -> Option<Entry<'a>>
        ensures { option_map constant_of result ≡ constant_at self.now index }
    {
        entry_at(&self.entries, index)
    }

    /// The text at an index.
    pub fn text(&self, index: u16) -> Option<&'a [u8]>
        ensures { option_copied result ≡ text_at self.now index }
    {
        match self.get(index) {
            Some(Entry::Utf8(text)) => Some(text),
            _ => None,
        }
    }

    /// The text of the class at an index.
    pub fn class_name(&self, index: u16) -> Option<&'a [u8]>
        ensures { option_copied result ≡ class_name_at self.now index }
    {
        match self.get(index) {
            Some(Entry::Class(name)) => self.text(name),
            _ => None,
        }
    }

    /// The texts of the name and the descriptor at an index.
    pub fn name_and_type(&self, index: u16) -> Option<(&'a [u8], &'a [u8])>
        ensures { option_map (λ x. (x.0.now, x.1.now)) result ≡ name_and_type_at self.now index }
    {
        match self.get(index) {
            Some(Entry::NameAndType(name, desc)) => match (self.text(name), self.text(desc)) {
                (Some(name), Some(desc)) => Some((name, desc)),
                _ => None,
            },
            _ => None,
        }
    }

    /// The texts of the class, the name and the descriptor of the field or method at an index.
    pub fn member(&self, index: u16) -> Option<(&'a [u8], &'a [u8], &'a [u8])>
        ensures { option_map (λ x. (x.0.now, (x.1.now, x.2.now))) result ≡ member_at self.now index }
    {
        let (class, name_and_type) = match self.get(index) {
            Some(Entry::Field(class, name_and_type)) => (class, name_and_type),
            Some(Entry::Method(class, name_and_type)) => (class, name_and_type),
            Some(Entry::InterfaceMethod(class, name_and_type)) => (class, name_and_type),
            _ => return None,
        };
        match (self.class_name(class), self.name_and_type(name_and_type)) {
            (Some(class), Some((name, desc))) => Some((class, name, desc)),
            _ => None,
        }
    }
}
