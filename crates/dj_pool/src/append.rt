ghost use Rattle.std.specs.Prelude.{◌≡◌, ◌≤◌, [], ◌∷◌, ◌++◌, length, map, IfOk, IfErr, OnOk};
ghost use Rattle.dj_pool.specs.trusted.Pool.{Hole, indexed, takes_two, IsConstant};
ghost use Rattle.dj_pool.specs.Views.{constant_of};
ghost use Rattle.dj_pool.specs.Answers.{Appends, MayHaveText, Redirects, with_text};

use crate::entries::is_wide;
use crate::pool::{Entry, Pool};
use std::alloc::{AllocError, AllocFailed, Global};
use thiserror::Error;

// The greatest index that an entry may have, since the count is one more and fits two bytes.
const LAST_INDEX: usize = 65534;

/// Why an entry was not appended, or a pool not copied or changed.
#[derive(Clone, Copy, Debug, PartialEq, Eq, Error)]
pub enum AppendError {
    /// The entry's last index would pass 65,534.
    #[error("the pool is full")]
    Full,
    /// There was no memory.
    #[error("out of memory")]
    Memory,
}

impl From<AllocError> for AppendError {
    ghost use Rattle.dj_pool.specs.declared.append.AppendError.TheVariants.{Memory};

    ghost from_gives = { λ _ e. e ≡ Memory };

    fn from(_error: AllocError) -> AppendError {
        AppendError::Memory
    }
}

impl<T: Drop> From<AllocFailed<T>> for AppendError {
    ghost use Rattle.dj_pool.specs.declared.append.AppendError.TheVariants.{Memory};

    ghost from_gives = { λ _ e. e ≡ Memory };

    fn from(_error: AllocFailed<T>) -> AppendError {
        AppendError::Memory
    }
}

impl<'a> Pool<'a> {
    /// No entries.
    pub fn new(alloc: Global) -> Pool<'a>
        ensures { result ≡ [] }
    {
        Pool {
            entries: Vec::new(alloc),
        }
    }

    /// A copy of the entries.
    pub fn copy(&self, alloc: Global) -> Result<Pool<'a>, AppendError>
        ensures ok { IfOk result (λ pool. pool ≡ self.now) }
        ensures err { IfErr result (λ e. e ≡ AppendError.Memory) }
    {
        let entries = self.entries.as_slice().to_vec(alloc)?;
        Ok(Pool { entries })
    }

    /// A copy of the entries for as long as the pool is lent, so that entries with texts of a shorter life may be appended.
    pub fn lend<'t>(&'t self, alloc: Global) -> Result<Pool<'t>, AppendError>
        ensures ok { IfOk result (λ pool. pool ≡ self.now) }
        ensures err { IfErr result (λ e. e ≡ AppendError.Memory) }
    {
        let mut entries = Vec::with_capacity(alloc, self.entries.len())?;
        for entry in self.entries.as_slice() {
            entries.push(lent(entry))?;
        }
        Ok(Pool { entries })
    }

    fn push_one(&mut self, entry: Entry<'a>) -> Result<(), AppendError>
        ensures ok { OnOk result (self.new ≡ self.old ++ constant_of entry.entry ∷ []) }
        ensures err { IfErr result (λ e. (self.new ≡ self.old) × (e ≡ AppendError.Memory)) }
    {
        self.entries.push(entry)?;
        Ok(())
    }

    /// Appends an entry and the hole after it.
    fn push_wide(&mut self, entry: Entry<'a>) -> Result<(), AppendError>
        ensures ok { OnOk result (self.new ≡ self.old ++ constant_of entry.entry ∷ (Hole ∷ [])) }
        ensures err { IfErr result (λ e. (self.new ≡ self.old) × (e ≡ AppendError.Memory)) }
    {
        self.entries.reserve(2)?;
        self.entries.push(entry)?;
        match self.entries.push(Entry::Hole) {
            Ok(()) => Ok(()),
            Err(_) => unreachable!(),
        }
    }

    /// Appends what an entry puts at its indexes.
    fn push(&mut self, entry: Entry<'a>) -> Result<(), AppendError>
        ensures ok { OnOk result (self.new ≡ self.old ++ indexed (constant_of entry.entry ∷ [])) }
        ensures err { IfErr result (λ e. (self.new ≡ self.old) × (e ≡ AppendError.Memory)) }
    {
        if is_wide(&entry) {
            self.push_wide(entry)
        } else {
            self.push_one(entry)
        }
    }

    /// Appends an entry that is valid there, and returns its index. The pool stays as it is where there is no room or no memory.
    pub fn append(&mut self, entry: Entry<'a>) -> Result<u16, AppendError>
        requires { IsConstant self.old (constant_of entry) }
        ensures { Appends self.old (constant_of entry.entry) self.new result }
    {
        let len = self.entries.len();
        if LAST_INDEX - taken(&entry) < len {
            return Err(AppendError::Full);
        }
        self.push(entry)?;
        Ok((len + 1) as u16)
    }

    /// Gives the class, the name and type or the method type at an index another text; of a name and type this is the descriptor.
    pub fn redirect(&mut self, index: u16, text: u16) -> Result<(), AppendError>
        requires { MayHaveText self.old index text }
        ensures ok { OnOk result (Redirects self.old index text self.new) }
        ensures err { IfErr result (λ e. (self.new ≡ self.old) × (e ≡ AppendError.Memory)) }
    {
        let at = (index - 1) as usize;
        let changed = with_text(&self.entries[at], text);
        self.entries[at] = changed;
        Ok(())
    }
}

/// The indexes that the entry takes.
fn taken(entry: &Entry<'_>) -> usize
    ensures is { result ≡ length (indexed (constant_of entry.now ∷ [])) }
    ensures few { result ≤ 2 }
{
    if is_wide(entry) { 2 } else { 1 }
}

/// The entry with another text, where it has one.
fn with_text<'a>(entry: &Entry<'a>, text: u16) -> Entry<'a>
    ensures { constant_of result ≡ with_text text (constant_of entry.now) }
{
    match entry {
        Entry::Class(_) => Entry::Class(text),
        Entry::NameAndType(name, _) => Entry::NameAndType(*name, text),
        Entry::MethodType(_) => Entry::MethodType(text),
        other => *other,
    }
}

/// The entry, with its text lent.
fn lent<'t>(entry: &'t Entry<'_>) -> Entry<'t>
    ensures { constant_of result ≡ constant_of entry.now }
{
    match *entry {
        Entry::Utf8(text) => Entry::Utf8(text),
        Entry::Integer(value) => Entry::Integer(value),
        Entry::Float(bits) => Entry::Float(bits),
        Entry::Long(value) => Entry::Long(value),
        Entry::Double(bits) => Entry::Double(bits),
        Entry::Class(text) => Entry::Class(text),
        Entry::Text(text) => Entry::Text(text),
        Entry::Field(class, member) => Entry::Field(class, member),
        Entry::Method(class, member) => Entry::Method(class, member),
        Entry::InterfaceMethod(class, member) => Entry::InterfaceMethod(class, member),
        Entry::NameAndType(name, desc) => Entry::NameAndType(name, desc),
        Entry::Handle(kind, member) => Entry::Handle(kind, member),
        Entry::MethodType(text) => Entry::MethodType(text),
        Entry::Dynamic(row, member) => Entry::Dynamic(row, member),
        Entry::Hole => Entry::Hole,
    }
}
