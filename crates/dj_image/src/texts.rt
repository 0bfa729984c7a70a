ghost use Rattle.std.specs.Prelude.{◌≡◌, ℕ, ◌∷◌, ◌++◌, [], List, map, IfOk, OnOk};
ghost use Rattle.std.specs.Option.{option_to_list};
ghost use Rattle.std.specs.List.{AllByRecursion, filter_map};
ghost use Rattle.dj_pool.specs.trusted.Pool.{IsPool};
ghost use Rattle.dj_declarations.specs.trusted.Files.{name_in};
ghost use Rattle.dj_program.specs.trusted.Naming.{units_in};
ghost use Rattle.dj_image.specs.Texts.{AreTexts, RiseStrictly, HasPool, class_texts, value_texts, key_items, texts_in, texts_of};
ghost use Rattle.dj_image.specs.Uses.{SameMembers, pushed_text};

use crate::error::ImageError;
use crate::owned::OwnedPool;
use crate::parts::ClassParts;
use crate::uses::{Use, class_uses, value_uses};
use dj_names::{Units, units_of};
use std::alloc::Global;
use std::collections::BTreeSet;

// Adds a text where it isn't there.
fn add_text(alloc: Global, texts: &mut BTreeSet<Vec<u16>>, units: &[u16]) -> Result<(), ImageError>
    ensures { (all : List (List ℕ)) → AreTexts all texts.old → OnOk result (AreTexts (all ++ units.now ∷ []) texts.new) }
{
    if !texts.contains(units) {
        texts.insert(Vec::from_slice(alloc, units)?)?;
    }
    Ok(())
}

/// The units that the text at an index spells; there is no memory for those of a text that spells none.
pub(crate) fn units_at(alloc: Global, pool: &OwnedPool, index: u16) -> Result<Units, ImageError>
    ensures { IfOk result (λ units. units ≡ units_in (name_in pool.now index)) }
{
    let Some(text) = pool.text(index) else {
        return Err(ImageError::Memory);
    };
    let Ok(_) = u32::try_from(text.len()) else {
        return Err(ImageError::Memory);
    };
    let units = units_of(alloc, text).or(Err(ImageError::Memory))?;
    Ok(units)
}

// Adds what a use pushes.
fn add_use(
    alloc: Global,
    texts: &mut BTreeSet<Vec<u16>>,
    pool: &OwnedPool,
    one: Use,
) -> Result<(), ImageError>
    ensures { (all : List (List ℕ)) → AreTexts all texts.old → OnOk result (AreTexts (all ++ option_to_list (pushed_text pool.now one)) texts.new) }
{
    match one {
        Use::Pushed(index) => {
            let units = units_at(alloc, pool, index)?;
            add_text(alloc, texts, units.as_slice())
        }
        _ => Ok(()),
    }
}

// Adds what uses push.
fn add_uses(
    alloc: Global,
    texts: &mut BTreeSet<Vec<u16>>,
    pool: &OwnedPool,
    uses: &[Use],
) -> Result<(), ImageError>
    ensures { (all : List (List ℕ)) → AreTexts all texts.old → OnOk result (AreTexts (all ++ filter_map (pushed_text pool.now) uses.now) texts.new) }
{
    for one in uses {
        add_use(alloc, texts, pool, *one)?;
    }
    Ok(())
}

// Adds what the instructions of a class push.
fn add_pushed(
    alloc: Global,
    texts: &mut BTreeSet<Vec<u16>>,
    parts: &ClassParts,
) -> Result<(), ImageError>
    requires { IsPool parts.now.pool }
    ensures { (all : List (List ℕ)) → AreTexts all texts.old → OnOk result (AreTexts (all ++ class_texts parts.now) texts.new) }
{
    let uses = class_uses(alloc, parts)?;
    add_uses(alloc, texts, &parts.pool, &uses)
}

// Adds the texts with which the fields of a class begin.
fn add_values(
    alloc: Global,
    texts: &mut BTreeSet<Vec<u16>>,
    parts: &ClassParts,
) -> Result<(), ImageError>
    requires { IsPool parts.now.pool }
    ensures { (all : List (List ℕ)) → AreTexts all texts.old → OnOk result (AreTexts (all ++ value_texts parts.now.pool parts.now.values.items) texts.new) }
{
    let uses = value_uses(alloc, parts)?;
    add_uses(alloc, texts, &parts.pool, &uses)
}

// The texts of a set, in the order of their units.
fn listed(alloc: Global, texts: &BTreeSet<Vec<u16>>) -> Result<Vec<Units>, ImageError>
    ensures listed { IfOk result (λ listed. listed.items ≡ map key_items texts.now.keys) }
    ensures rise { IfOk result (λ listed. RiseStrictly listed.items) }
{
    let mut listed = Vec::with_capacity(alloc, texts.len())?;
    for text in texts {
        listed.push(Units::from_slice(alloc, text)?)?;
    }
    Ok(listed)
}

// Adds the texts that the instructions of a class push and with which its fields begin.
fn add_class(
    alloc: Global,
    texts: &mut BTreeSet<Vec<u16>>,
    class: &ClassParts,
) -> Result<(), ImageError>
    requires { IsPool class.now.pool }
    ensures { (all : List (List ℕ)) → AreTexts all texts.old → OnOk result (AreTexts (all ++ texts_in class.now) texts.new) }
{
    add_pushed(alloc, texts, class)?;
    add_values(alloc, texts, class)
}

/// The texts that have numbers, each once, in the order of their units.
pub(crate) fn texts_of(alloc: Global, parts: &[ClassParts]) -> Result<Vec<Units>, ImageError>
    requires { AllByRecursion HasPool parts.now }
    ensures rise { IfOk result (λ texts. RiseStrictly texts.items) }
    ensures listed { IfOk result (λ texts. SameMembers texts.items (texts_of parts.now)) }
{
    let mut texts = BTreeSet::new(alloc);
    for class in parts {
        add_class(alloc, &mut texts, class)?;
    }
    listed(alloc, &texts)
}
