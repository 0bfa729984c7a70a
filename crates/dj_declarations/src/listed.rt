//! The names of the interfaces that a class lists. A class file may list one constant often, and its text is kept once.
ghost use Rattle.std.specs.Prelude.{◌≡◌, ◌∷◌, ◌++◌, ◌<◌, [], None, Some, IfOk, OnOk, get_or, length, map, option_and_then, slice_get};
ghost use Rattle.std.specs.List.{flat_map};
ghost use Rattle.std.specs.Option.{option_map};
ghost use Rattle.dj_pool.specs.trusted.Pool.{class_name_at, class_text_of, constant_at, text_at};
ghost use Rattle.dj_class.specs.trusted.Names.{names_in};
ghost use Rattle.dj_declarations.specs.Lists.{listed_at, AreListed, NamesKeep, AreCopies};

use crate::error::DeclareError;
use dj_library_types::Names;
use dj_names::Name;
use dj_pool::{Entry, Pool};
use std::alloc::Global;

/// Names, and for each one that a class lists, in order, the place of its name among these.
#[derive(Drop)]
pub(crate) struct ListedNames {
    pub(crate) names: Names,
    pub(crate) places: Vec<u32>,
    ghost listed: { AreListed names places.items (listed_at names places.items) },
}

// Names copied from a pool, and by the index of a text the place of its copy.
#[derive(Drop)]
struct Copies {
    names: Names,
    places: Vec<Option<u32>>,
}

// Appends a copy of a name, and returns its place.
fn add_name(alloc: Global, names: &mut Names, name: &[u8]) -> Result<u32, DeclareError>
    ensures added { OnOk result (names.new ≡ names.old ++ name.now ∷ []) }
    ensures place { IfOk result (λ place. place ≡ length names.old) }
{
    let Ok(place) = u32::try_from(names.as_slice().len()) else {
        return Err(DeclareError::Memory);
    };
    names.push(Name::from_slice(alloc, name)?)?;
    Ok(place)
}

// ---- of a class file

// The index of the text of the class of an index.
fn class_text(pool: &Pool<'_>, index: u16) -> Option<u16>
    ensures { result ≡ option_and_then class_text_of (constant_at pool.now index) }
{
    match pool.get(index) {
        Some(Entry::Class(text)) => Some(text),
        _ => None,
    }
}

// No copies of a pool's texts.
fn no_copies(alloc: Global, pool: &Pool<'_>) -> Result<Copies, DeclareError>
    ensures copies { IfOk result (λ copies. AreCopies pool.now copies.names copies.places.items) }
    ensures none { IfOk result (λ copies. copies.names ≡ []) }
{
    let places = vec![in alloc; None; pool.as_slice().len() + 1]?;
    Ok(Copies {
        names: Names::new(alloc),
        places,
    })
}

// The place of the copy of the text of an index, where there is one.
fn place_of(copies: &Copies, index: u16) -> Option<u32>
    ensures { result ≡ get_or copies.now.places.items index None }
{
    *copies.places.get(index as usize)?
}

// Copies the text at an index, and returns the copy's place.
fn add_copy(
    alloc: Global,
    copies: &mut Copies,
    pool: &Pool<'_>,
    index: u16,
    text: &[u8],
) -> Result<u32, DeclareError>
    requires copies { AreCopies pool.now copies.old.names copies.old.places.items }
    requires text { text_at pool.now index ≡ Some text.now }
    ensures copies { OnOk result (AreCopies pool.now copies.new.names copies.new.places.items) }
    ensures keep { OnOk result (NamesKeep copies.old.names copies.new.names) }
    ensures place { IfOk result (λ place. slice_get copies.new.names place ≡ Some text.now) }
{
    let place = add_name(alloc, &mut copies.names, text)?;
    copies.places[index as usize] = Some(place);
    Ok(place)
}

// The place of the copy of the text of an index, which is copied where it wasn't before.
fn copied(
    alloc: Global,
    copies: &mut Copies,
    pool: &Pool<'_>,
    index: u16,
) -> Result<Option<u32>, DeclareError>
    requires { AreCopies pool.now copies.old.names copies.old.places.items }
    ensures copies { OnOk result (AreCopies pool.now copies.new.names copies.new.places.items) }
    ensures keep { OnOk result (NamesKeep copies.old.names copies.new.names) }
    ensures place { IfOk result (λ place. option_map (slice_get copies.new.names) place ≡ option_map Some (text_at pool.now index)) }
{
    if let Some(place) = place_of(copies, index) {
        return Ok(Some(place));
    }
    match pool.text(index) {
        Some(text) => Ok(Some(add_copy(alloc, copies, pool, index, text)?)),
        None => Ok(None),
    }
}

// The place of the copy of the name of the class of an index, where there is one.
fn copied_class(
    alloc: Global,
    copies: &mut Copies,
    pool: &Pool<'_>,
    index: u16,
) -> Result<Option<u32>, DeclareError>
    requires { AreCopies pool.now copies.old.names copies.old.places.items }
    ensures copies { OnOk result (AreCopies pool.now copies.new.names copies.new.places.items) }
    ensures keep { OnOk result (NamesKeep copies.old.names copies.new.names) }
    ensures place { IfOk result (λ place. option_map (slice_get copies.new.names) place ≡ option_map Some (class_name_at pool.now index)) }
{
    match class_text(pool, index) {
        Some(text) => copied(alloc, copies, pool, text),
        None => Ok(None),
    }
}

/// The names of the classes of these indexes, in order. Each text of the pool is copied once at most.
pub(crate) fn class_names(
    alloc: Global,
    pool: &Pool<'_>,
    indexes: &[u16],
) -> Result<ListedNames, DeclareError>
    ensures { IfOk result (λ listed. listed_at listed.names listed.places.items ≡ flat_map (λ index. names_in (class_name_at pool.now index)) indexes.now) }
{
    let mut copies = no_copies(alloc, pool)?;
    let mut places = Vec::new(alloc);
    for index in indexes {
        if let Some(place) = copied_class(alloc, &mut copies, pool, *index)? {
            places.push(place)?;
        }
    }
    Ok(ListedNames {
        names: copies.names,
        places,
    })
}

// ---- of a library

/// The names, in order.
pub(crate) fn copied_names(alloc: Global, names: &[Name]) -> Result<ListedNames, DeclareError>
    ensures { IfOk result (λ listed. listed_at listed.names listed.places.items ≡ names.now) }
{
    let mut copies = Names::new(alloc);
    let mut places = Vec::new(alloc);
    for name in names {
        let place = add_name(alloc, &mut copies, name.as_slice())?;
        places.push(place)?;
    }
    Ok(ListedNames {
        names: copies,
        places,
    })
}
