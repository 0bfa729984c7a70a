ghost use Rattle.std.specs.Prelude.{◌≡◌, ℕ, ◌+◌, ◌++◌, ◌∷◌, [], ◌<◌, ◌^◌, List, length, map, IfOk, OnOk};
ghost use Rattle.dj_pool.specs.trusted.Pool.{IsPool};
ghost use Rattle.dj_model.specs.trusted.Types.{object_name};
ghost use Rattle.dj_class_table.specs.Tables.{class_number};
ghost use Rattle.dj_numbering.specs.Named.{IsDirectoryOf};
ghost use Rattle.dj_numbering.specs.Typed.{AreArrays};
ghost use Rattle.dj_image.specs.declared.parts.ClassParts.{ClassParts};
ghost use Rattle.dj_image.specs.Gathered.{text_at_index, value_reported, AreOfClass, AreOfClasses};
ghost use Rattle.dj_image.specs.Indexed.{Holds, text_place};
ghost use Rattle.dj_image.specs.Parts.{FitClasses};
ghost use Rattle.dj_image.specs.Tables.{imaged_of};
ghost use Rattle.dj_image.specs.Texts.{RiseStrictly};

use crate::error::ImageError;
use crate::indexed::{made_table, named_table, number_at, text_arrays, text_classes, text_places};
use crate::operand::Operand;
use crate::operands::{operand_table, text_operand};
use crate::owned::OwnedPool;
use crate::parts::{ClassParts, FieldValue};
use dj_names::Units;
use dj_numbering::{Directory, Types};
use std::alloc::Global;

/// What is kept of the constants of a class and of its fields.
#[derive(Drop)]
pub(crate) struct ClassTables {
    pub(crate) operands: Vec<Operand>,
    pub(crate) named: Vec<Option<u32>>,
    pub(crate) made: Vec<Option<u32>>,
    pub(crate) constants: Vec<Operand>,
}

/// What is kept of the constants of each class and of its fields.
#[derive(Drop)]
pub(crate) struct Tables {
    pub(crate) operands: Vec<Vec<Operand>>,
    pub(crate) named: Vec<Vec<Option<u32>>>,
    pub(crate) made: Vec<Vec<Option<u32>>>,
    pub(crate) constants: Vec<Vec<Operand>>,
}

// The text at an index as an operand, by the numbers of texts; there is no memory for one that isn't there.
fn text_kept(pool: &OwnedPool, places: &[Option<u32>], index: u16) -> Result<Operand, ImageError>
    ensures { (texts : List (List ℕ)) → Holds (text_place texts pool.now) (length pool.now + 1) places.now → IfOk result (λ operand. operand ≡ text_at_index texts pool.now index) }
{
    match pool.text(index) {
        Some(_) => Ok(text_operand(number_at(places, index))),
        None => Err(ImageError::Memory),
    }
}

// What the constant with which a field begins is as an operand.
fn value_operand(
    pool: &OwnedPool,
    places: &[Option<u32>],
    value: &Option<FieldValue>,
) -> Result<Operand, ImageError>
    ensures { (texts : List (List ℕ)) → Holds (text_place texts pool.now) (length pool.now + 1) places.now → IfOk result (λ operand. operand ≡ value_reported texts pool.now value.now) }
{
    match value {
        None => Ok(Operand::Nothing),
        Some(FieldValue::Int(n)) => Ok(Operand::Int(*n)),
        Some(FieldValue::Long(n)) => Ok(Operand::Long(*n)),
        Some(FieldValue::Text(index)) => text_kept(pool, places, *index),
        Some(FieldValue::Unfit) => Ok(Operand::Unresolved),
    }
}

fn constant_table(
    alloc: Global,
    pool: &OwnedPool,
    places: &[Option<u32>],
    values: &[Option<FieldValue>],
) -> Result<Vec<Operand>, ImageError>
    ensures { (texts : List (List ℕ)) → Holds (text_place texts pool.now) (length pool.now + 1) places.now → IfOk result (λ kept. kept.items ≡ map (value_reported texts pool.now) values.now) }
{
    let mut kept = Vec::new(alloc);
    for value in values {
        kept.push(value_operand(pool, places, value)?)?;
    }
    Ok(kept)
}

// The tables of a class.
fn class_tables(
    alloc: Global,
    types: &Types,
    directory: Option<&Directory<'_>>,
    texts: &[Units],
    object: Option<u32>,
    class: &ClassParts,
) -> Result<ClassTables, ImageError>
    requires same { IsDirectoryOf types.now.program directory }
    requires arrays { AreArrays types.now.program types.now.arrays }
    requires object { object ≡ class_number types.now.program (object_name types.now.prefix) }
    requires rise { RiseStrictly texts.now }
    requires few { length texts.now < 2 ^ 32 }
    requires valid { IsPool class.now.pool }
    ensures { (parts : List ClassParts) → FitClasses types.now.program parts → IfOk result (AreOfClass (imaged_of types.now parts texts.now) class.now) }
{
    let classes = text_classes(alloc, types, &class.pool)?;
    let arrays = text_arrays(alloc, types, &class.pool)?;
    let places = text_places(alloc, texts, &class.pool)?;
    let operands = operand_table(
        alloc,
        types,
        directory,
        &class.pool,
        &places,
        &classes,
        object,
    )?;
    let named = named_table(alloc, &class.pool, &classes)?;
    let made = made_table(alloc, &class.pool, &arrays)?;
    let constants = constant_table(alloc, &class.pool, &places, &class.values)?;
    Ok(ClassTables {
        operands,
        named,
        made,
        constants,
    })
}

fn add_tables(tables: &mut Tables, class: ClassTables) -> Result<(), ImageError>
    ensures operands { OnOk result (tables.new.operands.items ≡ tables.old.operands.items ++ class.operands ∷ []) }
    ensures named { OnOk result (tables.new.named.items ≡ tables.old.named.items ++ class.named ∷ []) }
    ensures made { OnOk result (tables.new.made.items ≡ tables.old.made.items ++ class.made ∷ []) }
    ensures constants { OnOk result (tables.new.constants.items ≡ tables.old.constants.items ++ class.constants ∷ []) }
{
    tables.operands.push(class.operands)?;
    tables.named.push(class.named)?;
    tables.made.push(class.made)?;
    tables.constants.push(class.constants)?;
    Ok(())
}

// The tables of classes. The directory, where there is one, is that of the classes.
fn tables_by(
    alloc: Global,
    types: &Types,
    directory: Option<&Directory<'_>>,
    texts: &[Units],
    object: Option<u32>,
    parts: &[ClassParts],
) -> Result<Tables, ImageError>
    requires same { IsDirectoryOf types.now.program directory }
    requires arrays { AreArrays types.now.program types.now.arrays }
    requires object { object ≡ class_number types.now.program (object_name types.now.prefix) }
    requires rise { RiseStrictly texts.now }
    requires few { length texts.now < 2 ^ 32 }
    requires fit { FitClasses types.now.program parts.now }
    ensures { IfOk result (AreOfClasses (imaged_of types.now parts.now texts.now) parts.now) }
{
    let mut tables = Tables {
        operands: Vec::new(alloc),
        named: Vec::new(alloc),
        made: Vec::new(alloc),
        constants: Vec::new(alloc),
    };
    for class in parts {
        let made = class_tables(alloc, types, directory, texts, object, class)?;
        add_tables(&mut tables, made)?;
    }
    Ok(tables)
}

/// The tables of classes.
pub(crate) fn tables_of(
    alloc: Global,
    types: &Types,
    texts: &[Units],
    object: Option<u32>,
    parts: &[ClassParts],
) -> Result<Tables, ImageError>
    requires arrays { AreArrays types.now.program types.now.arrays }
    requires object { object ≡ class_number types.now.program (object_name types.now.prefix) }
    requires rise { RiseStrictly texts.now }
    requires few { length texts.now < 2 ^ 32 }
    requires fit { FitClasses types.now.program parts.now }
    ensures { IfOk result (AreOfClasses (imaged_of types.now parts.now texts.now) parts.now) }
{
    let directory = types.linker().directory(alloc)?;
    match &directory {
        Some(directory) => tables_by(alloc, types, Some(directory), texts, object, parts),
        None => tables_by(alloc, types, None, texts, object, parts),
    }
}
