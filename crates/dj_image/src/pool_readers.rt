ghost use Rattle.std.specs.Prelude.{◌≡◌, option_and_then};
ghost use Rattle.std.specs.Option.{option_copied};
ghost use Rattle.dj_pool.specs.trusted.Pool.{constant_at, class_text_of, text_at, names_of};

use crate::owned::{OwnedEntry, OwnedPool};

impl OwnedPool {
    /// The text at an index.
    pub(crate) fn text(&self, index: u16) -> Option<&[u8]>
        ensures { option_copied result ≡ text_at self.now index }
    {
        match self.entry(index) {
            Some(OwnedEntry::Utf8(text)) => Some(text.as_slice()),
            _ => None,
        }
    }

    /// The index of the text of the class at an index.
    pub(crate) fn class_text(&self, index: u16) -> Option<u16>
        ensures { result ≡ option_and_then class_text_of (constant_at self.now index) }
    {
        match self.entry(index) {
            Some(OwnedEntry::Class(text)) => Some(*text),
            _ => None,
        }
    }

    /// The indexes of the texts of the name and the descriptor at an index.
    pub(crate) fn names(&self, index: u16) -> Option<(u16, u16)>
        ensures { result ≡ option_and_then names_of (constant_at self.now index) }
    {
        match self.entry(index) {
            Some(OwnedEntry::NameAndType(name, desc)) => Some((*name, *desc)),
            _ => None,
        }
    }
}
