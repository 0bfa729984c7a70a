//! The constant pool as entries are needed.
ghost use Rattle.std.specs.Prelude.{◌≡◌, [], ◌∷◌, map, IfOk};
ghost use Rattle.dj_asm_pool.specs.trusted.Entries as entries;
ghost use Rattle.dj_pool.specs.Views.{constant_of};
ghost use Rattle.dj_asm_pool.specs.Pooling.{PutsOne, Puts, PutsPair, IsKeyOf, member_parts, found_index, IsSought};

use crate::entries::entries_of;
use crate::key::Key;
use crate::places::Places;
use crate::texts::Texts;
use dj_pool::Entry;
use std::alloc::{AllocError, Global};
use std::marker::Model;

/// The entries of a pool, each once, in the order in which they were first needed.
#[derive(Drop)]
pub struct PoolBuilder {
    texts: Texts,
    places: Places,
}

impl Model for PoolBuilder {
    ghost use Rattle.std.specs.Prelude.{List};
    ghost use Rattle.dj_asm_pool.specs.trusted.Entries as entries;
    ghost use Rattle.dj_asm_pool.specs.Pooling.{AreKeysOf, keyed_entries};

    ghost Value = { List entries.Entry };

    ghost view = { λ pool. keyed_entries pool.texts pool.places };

    ghost invariant = { λ pool. AreKeysOf pool.texts pool.places (keyed_entries pool.texts pool.places) };
}

impl PoolBuilder {
    /// No entries.
    pub fn new(alloc: Global) -> PoolBuilder
        ensures { result ≡ [] }
    {
        PoolBuilder {
            texts: Texts::new(alloc),
            places: Places::new(alloc),
        }
    }

    /// Puts an entry that has no text of its own, and returns its index.
    fn add(&mut self, key: Key) -> Result<Option<u16>, AllocError>
        requires { (e : entries.Entry) × IsKeyOf self.old key e }
        ensures { IfOk result (λ answer. (e : entries.Entry) → IsKeyOf self.old key e → PutsOne self.old e self.new answer) }
    {
        self.places.add(key)
    }

    /// Puts a text, and returns its index.
    pub(crate) fn utf8(&mut self, alloc: Global, text: &[u8]) -> Result<Option<u16>, AllocError>
        ensures { IfOk result (λ answer. PutsOne self.old (entries.Utf8 text.now) self.new answer) }
    {
        match self.texts.find(text) {
            Some(number) => self.places.add(Key::Utf8(number)),
            None => {
                if self.places.is_full() {
                    return Ok(None);
                }
                let number = self.texts.push(alloc, text)?;
                self.places.add(Key::Utf8(number))
            }
        }
    }

    /// The index of a text that is there, or 0.
    pub fn utf8_index(&self, text: &[u8]) -> u16
        ensures { result ≡ found_index self.now (entries.Utf8 text.now) }
    {
        match self.texts.find(text) {
            Some(number) => self.places.find(Key::Utf8(number)).unwrap_or(0),
            None => 0,
        }
    }

    /// The index of an entry that has no text of its own, or 0.
    pub(crate) fn sought(&self, key: Key) -> u16
        ensures { (e : entries.Entry) → IsSought self.now key e → result ≡ found_index self.now e }
    {
        self.places.find(key).unwrap_or(0)
    }

    /// The entries at their indexes, with a hole after each long.
    pub fn entries(&self, alloc: Global) -> Result<Vec<Entry<'_>>, AllocError>
        ensures { IfOk result (λ list. map constant_of list.items ≡ entries.pool_of self.now) }
    {
        entries_of(alloc, &self.texts, self.places.as_slice())
    }

    /// Puts an int, and returns its index.
    #[tactic(auto, using(crate::proofs::PoolChains::alone))]
    pub(crate) fn integer(&mut self, n: i32) -> Result<Option<u16>, AllocError>
        ensures { IfOk result (λ answer. Puts self.old (entries.Integer n) self.new answer) }
    {
        self.add(Key::Integer(n))
    }

    /// Puts a long, and returns its index.
    #[tactic(auto, using(crate::proofs::PoolChains::alone))]
    pub(crate) fn long(&mut self, n: i64) -> Result<Option<u16>, AllocError>
        ensures { IfOk result (λ answer. Puts self.old (entries.Long n) self.new answer) }
    {
        self.add(Key::Long(n))
    }

    /// Puts a class with its text, and returns its index.
    #[tactic(auto, using(crate::proofs::PoolChains::class_key, crate::proofs::PoolChains::class_put, crate::proofs::PoolChains::class_stop))]
    pub(crate) fn class(&mut self, alloc: Global, name: &[u8]) -> Result<Option<u16>, AllocError>
        ensures { IfOk result (λ answer. Puts self.old (entries.Class name.now) self.new answer) }
    {
        let Some(index) = self.utf8(alloc, name)? else {
            return Ok(None);
        };
        self.add(Key::Class(index))
    }

    /// Puts a string with its text, and returns its index.
    #[tactic(auto, using(crate::proofs::PoolChains::string_key, crate::proofs::PoolChains::string_put, crate::proofs::PoolChains::string_stop))]
    pub(crate) fn string(&mut self, alloc: Global, text: &[u8]) -> Result<Option<u16>, AllocError>
        ensures { IfOk result (λ answer. Puts self.old (entries.Text text.now) self.new answer) }
    {
        let Some(index) = self.utf8(alloc, text)? else {
            return Ok(None);
        };
        self.add(Key::Text(index))
    }

    /// Puts the texts of a name and a descriptor, and returns their indexes.
    #[tactic(auto, using(crate::proofs::PoolChains::texts_put, crate::proofs::PoolChains::texts_stop_last, crate::proofs::PoolChains::texts_stop))]
    fn names(
        &mut self,
        alloc: Global,
        name: &[u8],
        desc: &[u8],
    ) -> Result<Option<(u16, u16)>, AllocError>
        ensures { IfOk result (λ answer. PutsPair self.old (entries.Utf8 name.now ∷ (entries.Utf8 desc.now ∷ [])) (entries.Utf8 name.now) (entries.Utf8 desc.now) self.new answer) }
    {
        let Some(name_index) = self.utf8(alloc, name)? else {
            return Ok(None);
        };
        let Some(desc_index) = self.utf8(alloc, desc)? else {
            return Ok(None);
        };
        Ok(Some((name_index, desc_index)))
    }

    /// Puts a name and a descriptor with their texts, and returns their index.
    #[tactic(auto, using(crate::proofs::PoolChains::names_key, crate::proofs::PoolChains::names_put, crate::proofs::PoolChains::names_stop))]
    pub(crate) fn name_and_type(
        &mut self,
        alloc: Global,
        name: &[u8],
        desc: &[u8],
    ) -> Result<Option<u16>, AllocError>
        ensures { IfOk result (λ answer. Puts self.old (entries.NameAndType name.now desc.now) self.new answer) }
    {
        let Some((name_index, desc_index)) = self.names(alloc, name, desc)? else {
            return Ok(None);
        };
        self.add(Key::NameAndType(name_index, desc_index))
    }

    /// Puts the class, and the name and descriptor, of a field or method, and returns their indexes.
    #[tactic(auto, using(crate::proofs::PoolChains::member_put, crate::proofs::PoolChains::member_stop_last, crate::proofs::PoolChains::member_stop))]
    fn member(
        &mut self,
        alloc: Global,
        class: &[u8],
        name: &[u8],
        desc: &[u8],
    ) -> Result<Option<(u16, u16)>, AllocError>
        ensures { IfOk result (λ answer. PutsPair self.old (member_parts class.now name.now desc.now) (entries.Class class.now) (entries.NameAndType name.now desc.now) self.new answer) }
    {
        let Some(class_index) = self.class(alloc, class)? else {
            return Ok(None);
        };
        let Some(names_index) = self.name_and_type(alloc, name, desc)? else {
            return Ok(None);
        };
        Ok(Some((class_index, names_index)))
    }

    /// Puts a field with its parts, and returns its index.
    #[tactic(auto, using(crate::proofs::PoolChains::field_key, crate::proofs::PoolChains::field_put, crate::proofs::PoolChains::field_stop))]
    pub(crate) fn field(
        &mut self,
        alloc: Global,
        class: &[u8],
        name: &[u8],
        desc: &[u8],
    ) -> Result<Option<u16>, AllocError>
        ensures { IfOk result (λ answer. Puts self.old (entries.Field class.now name.now desc.now) self.new answer) }
    {
        let Some((class_index, names_index)) = self.member(alloc, class, name, desc)? else {
            return Ok(None);
        };
        self.add(Key::Field(class_index, names_index))
    }

    /// Puts a class's method with its parts, and returns its index.
    #[tactic(auto, using(crate::proofs::PoolChains::method_key, crate::proofs::PoolChains::method_put, crate::proofs::PoolChains::method_stop))]
    pub(crate) fn method(
        &mut self,
        alloc: Global,
        class: &[u8],
        name: &[u8],
        desc: &[u8],
    ) -> Result<Option<u16>, AllocError>
        ensures { IfOk result (λ answer. Puts self.old (entries.Method class.now name.now desc.now) self.new answer) }
    {
        let Some((class_index, names_index)) = self.member(alloc, class, name, desc)? else {
            return Ok(None);
        };
        self.add(Key::Method(class_index, names_index))
    }

    /// Puts an interface's method with its parts, and returns its index.
    #[tactic(auto, using(crate::proofs::PoolChains::interface_key, crate::proofs::PoolChains::interface_put, crate::proofs::PoolChains::interface_stop))]
    pub(crate) fn interface_method(
        &mut self,
        alloc: Global,
        class: &[u8],
        name: &[u8],
        desc: &[u8],
    ) -> Result<Option<u16>, AllocError>
        ensures { IfOk result (λ answer. Puts self.old (entries.InterfaceMethod class.now name.now desc.now) self.new answer) }
    {
        let Some((class_index, names_index)) = self.member(alloc, class, name, desc)? else {
            return Ok(None);
        };
        self.add(Key::InterfaceMethod(class_index, names_index))
    }

    /// Puts a call site with its name and descriptor, and returns its index.
    #[tactic(auto, using(crate::proofs::PoolChains::dynamic_key, crate::proofs::PoolChains::dynamic_put, crate::proofs::PoolChains::dynamic_stop))]
    pub(crate) fn dynamic(
        &mut self,
        alloc: Global,
        place: u16,
        name: &[u8],
        desc: &[u8],
    ) -> Result<Option<u16>, AllocError>
        ensures { IfOk result (λ answer. Puts self.old (entries.Dynamic place name.now desc.now) self.new answer) }
    {
        let Some(names_index) = self.name_and_type(alloc, name, desc)? else {
            return Ok(None);
        };
        self.add(Key::Dynamic(place, names_index))
    }
}
