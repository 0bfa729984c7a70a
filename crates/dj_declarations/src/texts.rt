//! Texts, each once, by numbers.
ghost use Rattle.std.specs.Prelude.{◌≡◌, ◌+◌, ◌<◌, ◌≤◌, ◌^◌, ◌++◌, ◌∷◌, [], Some, None, IfOk, IfSome, IfNone, OnOk, OnErr, length};
ghost use Rattle.std.specs.Cmp.Lexicographic.{slice_cmp};
ghost use Rattle.std.specs.Ordering.{nat_cmp};
ghost use Rattle.dj_declarations.specs.Texts.{number_in, text_in, texts_from, start_at, AreAscending, AreBefore, AreEnds, NumbersKeep};

use crate::error::DeclareError;
use std::alloc::Global;
use std::cmp::Ordering;
use std::marker::Model;

/// The texts of a class, each once, in ascending order: the number of a text is its place. They are in one list of bytes, and of
/// each one the place is kept where it ends.
#[derive(Drop)]
pub(crate) struct TextTable {
    bytes: Vec<u8>,
    ends: Vec<u32>,
    ghost few: { length ends.items ≤ 2 ^ 16 },
    ghost ended: { AreEnds ends.items (length bytes.items) },
    ghost ascend: { AreAscending (texts_from 0 ends.items bytes.items) },
}

impl Model for TextTable {
    ghost use Rattle.std.specs.Prelude.{ℕ, List};
    ghost use Rattle.dj_declarations.specs.Texts.{texts_from};

    ghost Value = { List (List ℕ) };

    ghost view = { λ table. texts_from 0 table.ends.items table.bytes.items };
}

// Where the text at a place begins.
#[tactic(auto, using(crate::proofs::TextLaws::begins, crate::proofs::TextLaws::begins_first))]
fn start_at(ends: &[u32], place: usize) -> usize
    requires { place ≤ length ends.now }
    ensures { result ≡ start_at 0 ends.now place }
{
    if place == 0 {
        0
    } else {
        ends[place - 1] as usize
    }
}

// The text at a place.
#[tactic(auto, using(crate::proofs::TextLaws::starts_before, crate::proofs::TextLaws::ends_inside, crate::proofs::TextLaws::text_read))]
fn text_at<'a>(bytes: &'a [u8], ends: &[u32], place: usize) -> &'a [u8]
    requires within { place < length ends.now }
    requires ended { AreEnds ends.now (length bytes.now) }
    ensures { result.now ≡ text_in (texts_from 0 ends.now bytes.now) place }
{
    let start = start_at(ends, place);
    let end = ends[place] as usize;
    &bytes[start..end]
}

// How the text at a place compares with another.
fn compare_at(bytes: &[u8], ends: &[u32], place: usize, text: &[u8]) -> Ordering
    requires within { place < length ends.now }
    requires ended { AreEnds ends.now (length bytes.now) }
    ensures { result ≡ slice_cmp nat_cmp (text_in (texts_from 0 ends.now bytes.now) place) text.now }
{
    text_at(bytes, ends, place).cmp(&text)
}

// The number of a text among texts in ascending order.
#[tactic(auto, using(crate::proofs::TextLaws::between_all, crate::proofs::TextLaws::found_there, crate::proofs::TextLaws::found_nowhere))]
fn number_of(bytes: &[u8], ends: &[u32], text: &[u8]) -> Option<u16>
    requires few { length ends.now ≤ 2 ^ 16 }
    requires ended { AreEnds ends.now (length bytes.now) }
    requires ascend { AreAscending (texts_from 0 ends.now bytes.now) }
    ensures { result ≡ number_in (texts_from 0 ends.now bytes.now) text.now }
{
    let mut low = 0;
    let mut high = ends.len();
    while low < high {
        let middle = low + (high - low) / 2;
        match compare_at(bytes, ends, middle, text) {
            Ordering::Less => low = middle + 1,
            Ordering::Equal => return Some(middle as u16),
            Ordering::Greater => high = middle,
        }
    }
    None
}

// The place of the last text, if it is this one; none where this one comes after it. This one must not come before the last.
#[tactic(auto, using(crate::proofs::TextLaws::before_none, crate::proofs::TextLaws::before_by_last, crate::proofs::TextLaws::found_there))]
fn last_place(bytes: &[u8], ends: &[u32], text: &[u8]) -> Result<Option<u16>, DeclareError>
    requires few { length ends.now ≤ 2 ^ 16 }
    requires ended { AreEnds ends.now (length bytes.now) }
    requires ascend { AreAscending (texts_from 0 ends.now bytes.now) }
    ensures reported { IfOk result (λ found. IfSome found (λ number. number_in (texts_from 0 ends.now bytes.now) text.now ≡ Some number)) }
    ensures after { IfOk result (λ found. IfNone found (AreBefore (texts_from 0 ends.now bytes.now) text.now)) }
{
    if ends.is_empty() {
        return Ok(None);
    }
    let last = ends.len() - 1;
    match compare_at(bytes, ends, last, text) {
        Ordering::Less => Ok(None),
        Ordering::Equal => Ok(Some(last as u16)),
        Ordering::Greater => Err(DeclareError::Memory),
    }
}

// Where this many bytes more end.
fn end_of(start: usize, more: usize) -> Option<u32>
    ensures { IfSome result (λ end. end ≡ start + more) }
{
    u32::try_from(start.checked_add(more)?).ok()
}

// Appends a text, and where it ends.
#[tactic(auto, using(crate::proofs::TextLaws::taken_back))]
fn push_text(bytes: &mut Vec<u8>, ends: &mut Vec<u32>, text: &[u8]) -> Result<(), DeclareError>
    ensures ok { OnOk result (bytes.new.items ≡ bytes.old.items ++ text.now) × OnOk result (ends.new.items ≡ ends.old.items ++ (length bytes.old.items + length text.now) ∷ []) }
    ensures err { OnErr result (bytes.new.items ≡ bytes.old.items) × OnErr result (ends.new.items ≡ ends.old.items) }
{
    let start = bytes.len();
    let Some(end) = end_of(start, text.len()) else {
        return Err(DeclareError::Memory);
    };
    bytes.extend_from_slice(text)?;
    match ends.push(end) {
        Ok(()) => Ok(()),
        Err(_) => {
            bytes.truncate(start);
            Err(DeclareError::Memory)
        }
    }
}

impl TextTable {
    /// No texts, with room for this many of this many bytes.
    pub(crate) fn with_room(
        alloc: Global,
        texts: usize,
        bytes: usize,
    ) -> Result<TextTable, DeclareError>
        ensures { IfOk result (λ table. table ≡ []) }
    {
        Ok(TextTable {
            bytes: Vec::with_capacity(alloc, bytes)?,
            ends: Vec::with_capacity(alloc, texts)?,
        })
    }

    /// Gives back the room that no text took.
    pub(crate) fn shrink(&mut self)
        ensures { self.new ≡ self.old }
    {
        self.bytes.shrink_to_fit();
        self.ends.shrink_to_fit();
    }

    /// The number of a text.
    pub(crate) fn find(&self, text: &[u8]) -> Option<u16>
        ensures { result ≡ number_in self.now text.now }
    {
        number_of(&self.bytes, &self.ends, text)
    }

    /// The text of a number.
    pub(crate) fn text(&self, number: u16) -> &[u8]
        requires { number_in self.now (text_in self.now number) ≡ Some number }
        ensures { result.now ≡ text_in self.now number }
    {
        text_at(&self.bytes, &self.ends, number as usize)
    }

    /// How many texts there are.
    pub(crate) fn count(&self) -> usize
        ensures { result ≡ length self.now }
    {
        self.ends.len()
    }

    /// The text at a place.
    pub(crate) fn at(&self, place: usize) -> &[u8]
        requires { place < length self.now }
        ensures { result.now ≡ text_in self.now place }
    {
        text_at(&self.bytes, &self.ends, place)
    }

    // The number of the last text, if it is this one; none where this one comes after it.
    fn last_number(&self, text: &[u8]) -> Result<Option<u16>, DeclareError>
        ensures reported { IfOk result (λ found. IfSome found (λ number. number_in self.now text.now ≡ Some number)) }
        ensures after { IfOk result (λ found. IfNone found (AreBefore self.now text.now)) }
    {
        last_place(&self.bytes, &self.ends, text)
    }

    // Gives a text that is after all others the next number.
    fn append(&mut self, text: &[u8]) -> Result<u16, DeclareError>
        requires { AreBefore self.old text.now }
        ensures reported { IfOk result (λ number. number_in self.new text.now ≡ Some number) }
        ensures keeps { OnOk result (NumbersKeep self.old self.new) }
    {
        let Ok(number) = u16::try_from(self.ends.len()) else {
            return Err(DeclareError::Memory);
        };
        push_text(&mut self.bytes, &mut self.ends, text)?;
        Ok(number)
    }

    /// The number of a text, none of which comes before the last one that was added. It gets the next number where it isn't that one.
    pub(crate) fn add(&mut self, text: &[u8]) -> Result<u16, DeclareError>
        ensures reported { IfOk result (λ number. number_in self.new text.now ≡ Some number) }
        ensures keeps { OnOk result (NumbersKeep self.old self.new) }
    {
        match self.last_number(text)? {
            Some(number) => Ok(number),
            None => self.append(text),
        }
    }
}
