ghost use Rattle.std.specs.Prelude.{◌≡◌, [], length, IfOk};
ghost use Rattle.std.specs.Option.{option_map};
ghost use Rattle.dj_pool.specs.trusted.Pool.{constant_at};
ghost use Rattle.dj_pool.specs.Views.{constant_of};
ghost use Rattle.dj_image.specs.Owned.{constant_of_owned};

use crate::error::ImageError;
use dj_names::Name;
use dj_pool::{Entry, Pool};
use std::alloc::Global;
use std::marker::Model;

/// An entry of a pool that is kept beyond its file.
#[derive(Debug, Drop)]
pub(crate) enum OwnedEntry {
    Utf8(Name),
    Integer(i32),
    Float(u32),
    Long(i64),
    Double(u64),
    Class(u16),
    Text(u16),
    Field(u16, u16),
    Method(u16, u16),
    InterfaceMethod(u16, u16),
    NameAndType(u16, u16),
    Handle(u8, u16),
    MethodType(u16),
    Dynamic(u16, u16),
    Hole,
}

/// The constants of a class that are kept beyond its file.
#[derive(Debug, Drop)]
pub struct OwnedPool {
    entries: Vec<OwnedEntry>,
}

impl Model for OwnedPool {
    ghost use Rattle.std.specs.Prelude.{List, map};
    ghost use Rattle.dj_pool.specs.trusted.Pool.{Constant};
    ghost use Rattle.dj_image.specs.Owned.{constant_of_owned};

    ghost Value = { List Constant };

    ghost view = { λ pool. map constant_of_owned pool.entries.items };
}

fn owned_entry(alloc: Global, entry: Entry<'_>) -> Result<OwnedEntry, ImageError>
    ensures { IfOk result (λ owned. constant_of_owned owned ≡ constant_of entry.entry) }
{
    Ok(match entry {
        Entry::Utf8(text) => OwnedEntry::Utf8(Name::from_slice(alloc, text)?),
        Entry::Integer(n) => OwnedEntry::Integer(n),
        Entry::Float(bits) => OwnedEntry::Float(bits),
        Entry::Long(n) => OwnedEntry::Long(n),
        Entry::Double(bits) => OwnedEntry::Double(bits),
        Entry::Class(name) => OwnedEntry::Class(name),
        Entry::Text(text) => OwnedEntry::Text(text),
        Entry::Field(class, names) => OwnedEntry::Field(class, names),
        Entry::Method(class, names) => OwnedEntry::Method(class, names),
        Entry::InterfaceMethod(class, names) => OwnedEntry::InterfaceMethod(class, names),
        Entry::NameAndType(name, desc) => OwnedEntry::NameAndType(name, desc),
        Entry::Handle(kind, member) => OwnedEntry::Handle(kind, member),
        Entry::MethodType(desc) => OwnedEntry::MethodType(desc),
        Entry::Dynamic(bootstrap, names) => OwnedEntry::Dynamic(bootstrap, names),
        Entry::Hole => OwnedEntry::Hole,
    })
}

/// The same constants, with texts of their own.
pub fn own_pool(alloc: Global, pool: &Pool<'_>) -> Result<OwnedPool, ImageError>
    ensures { IfOk result (λ owned. owned ≡ pool.now) }
{
    let mut entries = Vec::new(alloc);
    for entry in pool.as_slice() {
        entries.push(owned_entry(alloc, *entry)?)?;
    }
    Ok(OwnedPool { entries })
}

impl OwnedPool {
    /// No constants, as a library's class has.
    pub fn new(alloc: Global) -> OwnedPool
        ensures { result ≡ [] }
    {
        OwnedPool {
            entries: Vec::new(alloc),
        }
    }
}

impl OwnedPool {
    /// The number of constants.
    pub(crate) fn len(&self) -> usize
        ensures { result ≡ length self.now }
    {
        self.entries.len()
    }

    /// The constant of an index; they count from 1.
    pub(crate) fn entry(&self, index: u16) -> Option<&OwnedEntry>
        ensures { option_map (λ e. constant_of_owned e.now) result ≡ constant_at self.now index }
    {
        if index == 0 {
            return None;
        }
        let at = usize::from(index) - 1;
        if at < self.entries.len() {
            Some(&self.entries[at])
        } else {
            None
        }
    }
}
