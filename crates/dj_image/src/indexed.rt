ghost use Rattle.std.specs.Prelude.{◌≡◌, ◌+◌, ◌<◌, ◌^◌, length, get_or, IfOk, None};
ghost use Rattle.dj_pool.specs.trusted.Pool.{IsPool};
ghost use Rattle.dj_image.specs.Indexed.{Holds, text_class, is_array, array_text, text_array, text_place, class_index, kept_class, kept_array};
ghost use Rattle.dj_image.specs.Operands.{units_number};
ghost use Rattle.dj_image.specs.Texts.{RiseStrictly};

use crate::error::ImageError;
use crate::owned::{OwnedEntry, OwnedPool};
use crate::texts::units_at;
use dj_names::Units;
use dj_numbering::Types;
use std::alloc::Global;

/// The number of indexes of a pool, with that of no constant.
pub(crate) fn index_count(pool: &OwnedPool) -> u16
    requires { length pool.now + 1 < 2 ^ 16 }
    ensures { result ≡ length pool.now + 1 }
{
    pool.len() as u16 + 1
}

/// The number at an index.
pub(crate) fn number_at(numbers: &[Option<u32>], index: u16) -> Option<u32>
    ensures { result ≡ get_or numbers.now index None }
{
    *numbers.get(usize::from(index))?
}

// ---- by the index of a text

fn text_class(types: &Types, pool: &OwnedPool, index: u16) -> Option<u32>
    ensures { result ≡ text_class types.now pool.now index }
{
    types.class_named(pool.text(index)?)
}

/// By the index of a text the number of the class or the array that it names. Each text is looked up once.
pub(crate) fn text_classes(
    alloc: Global,
    types: &Types,
    pool: &OwnedPool,
) -> Result<Vec<Option<u32>>, ImageError>
    requires { IsPool pool.now }
    ensures { IfOk result (λ kept. Holds (text_class types.now pool.now) (length pool.now + 1) kept.items) }
{
    let mut kept = Vec::new(alloc);
    let count = index_count(pool);
    for index in 0..count {
        let number = text_class(types, pool, index);
        kept.push(number)?;
    }
    Ok(kept)
}

/// Whether the text of a class constant is that of an array.
pub(crate) fn is_array(text: &[u8]) -> bool
    ensures { result ≡ is_array text.now }
{
    matches!(text, [b'[', ..])
}

// The descriptor of the array of which the elements are of the class or the array with this text.
fn array_text(alloc: Global, text: &[u8]) -> Result<Vec<u8>, ImageError>
    ensures { IfOk result (λ array. array.items ≡ array_text text.now) }
{
    let mut array = vec![in alloc; b'[']?;
    if is_array(text) {
        array.extend_from_slice(text)?;
    } else {
        array.push(b'L')?;
        array.extend_from_slice(text)?;
        array.push(b';')?;
    }
    Ok(array)
}

fn text_array(
    alloc: Global,
    types: &Types,
    pool: &OwnedPool,
    index: u16,
) -> Result<Option<u32>, ImageError>
    ensures { IfOk result (λ number. number ≡ text_array types.now pool.now index) }
{
    match pool.text(index) {
        Some(text) => {
            let array = array_text(alloc, text)?;
            Ok(types.class_named(array.as_slice()))
        }
        None => Ok(None),
    }
}

/// By the index of a text the number of the array of which the elements are of the class or the array that it names.
pub(crate) fn text_arrays(
    alloc: Global,
    types: &Types,
    pool: &OwnedPool,
) -> Result<Vec<Option<u32>>, ImageError>
    requires { IsPool pool.now }
    ensures { IfOk result (λ kept. Holds (text_array types.now pool.now) (length pool.now + 1) kept.items) }
{
    let mut kept = Vec::new(alloc);
    let count = index_count(pool);
    for index in 0..count {
        let number = text_array(alloc, types, pool, index)?;
        kept.push(number)?;
    }
    Ok(kept)
}

// The number of the text of these units, by halving.
fn place_of(texts: &[Units], units: &[u16]) -> Option<u32>
    requires rise { RiseStrictly texts.now }
    requires few { length texts.now < 2 ^ 32 }
    ensures { result ≡ units_number texts.now units.now }
{
    match texts.binary_search_by(|other| other.as_slice().cmp(units)) {
        Ok(place) => Some(place as u32),
        Err(_) => None,
    }
}

fn text_place(
    alloc: Global,
    texts: &[Units],
    pool: &OwnedPool,
    index: u16,
) -> Result<Option<u32>, ImageError>
    requires rise { RiseStrictly texts.now }
    requires few { length texts.now < 2 ^ 32 }
    ensures { IfOk result (λ place. place ≡ text_place texts.now pool.now index) }
{
    match pool.text(index) {
        Some(_) => {
            let units = units_at(alloc, pool, index)?;
            Ok(place_of(texts, units.as_slice()))
        }
        None => Ok(None),
    }
}

/// By the index of a text its number. Each text is looked up once.
pub(crate) fn text_places(
    alloc: Global,
    texts: &[Units],
    pool: &OwnedPool,
) -> Result<Vec<Option<u32>>, ImageError>
    requires rise { RiseStrictly texts.now }
    requires few { length texts.now < 2 ^ 32 }
    requires valid { IsPool pool.now }
    ensures { IfOk result (λ kept. Holds (text_place texts.now pool.now) (length pool.now + 1) kept.items) }
{
    let mut kept = Vec::new(alloc);
    let count = index_count(pool);
    for index in 0..count {
        let number = text_place(alloc, texts, pool, index)?;
        kept.push(number)?;
    }
    Ok(kept)
}

// ---- by the index of a constant

// The index of the text of the class that a constant names.
fn class_index(pool: &OwnedPool, index: u16) -> Option<u16>
    ensures { result ≡ class_index pool.now index }
{
    match pool.entry(index)? {
        OwnedEntry::Class(text) => Some(*text),
        OwnedEntry::Field(class, _) => pool.class_text(*class),
        OwnedEntry::Method(class, _) => pool.class_text(*class),
        OwnedEntry::InterfaceMethod(class, _) => pool.class_text(*class),
        _ => None,
    }
}

fn kept_class(pool: &OwnedPool, classes: &[Option<u32>], index: u16) -> Option<u32>
    ensures { result ≡ kept_class pool.now classes.now index }
{
    number_at(classes, class_index(pool, index)?)
}

/// By the index of a constant the number of the class that it names.
pub(crate) fn named_table(
    alloc: Global,
    pool: &OwnedPool,
    classes: &[Option<u32>],
) -> Result<Vec<Option<u32>>, ImageError>
    requires { IsPool pool.now }
    ensures { IfOk result (λ kept. Holds (kept_class pool.now classes.now) (length pool.now + 1) kept.items) }
{
    let mut kept = Vec::new(alloc);
    let count = index_count(pool);
    for index in 0..count {
        let number = kept_class(pool, classes, index);
        kept.push(number)?;
    }
    Ok(kept)
}

fn kept_array(pool: &OwnedPool, arrays: &[Option<u32>], index: u16) -> Option<u32>
    ensures { result ≡ kept_array pool.now arrays.now index }
{
    number_at(arrays, pool.class_text(index)?)
}

/// For each index of the pool, the number of the array that anewarray makes by its constant.
pub(crate) fn made_table(
    alloc: Global,
    pool: &OwnedPool,
    arrays: &[Option<u32>],
) -> Result<Vec<Option<u32>>, ImageError>
    requires { IsPool pool.now }
    ensures { IfOk result (λ kept. Holds (kept_array pool.now arrays.now) (length pool.now + 1) kept.items) }
{
    let mut kept = Vec::new(alloc);
    let count = index_count(pool);
    for index in 0..count {
        let number = kept_array(pool, arrays, index);
        kept.push(number)?;
    }
    Ok(kept)
}
