ghost use Rattle.std.specs.Prelude.{◌≡◌, ◌+◌, ◌^◌, ◌<◌, ◌≤◌, ◌++◌, length, map, IfOk, OnOk};
ghost use Rattle.std.specs.Option.{option_map};
ghost use Rattle.dj_numbering.specs.Typed.{begins_array, ArePlain, AreArrays, place_of_text};
ghost use Rattle.dj_numbering.specs.Shapes.{IsElement, AreElements, shape_type};
ghost use Rattle.dj_numbering.specs.Kept.{AreKept, DoTextsRise, all_bases, base_place, component_in, component_text, number_among, text_in, whole_of_base, whole_of_class, whole_place, whole_text, wholes_of};

use crate::error::TypesError;
use crate::shapes::{ElementType, Shape};
use dj_class_table::ClassTable;
use dj_declarations::spell_type;
use dj_names::{Base, Name, Of, Ty};
use std::alloc::{AllocError, Global};

const BASES: [Base; 8] = [
    Base::Boolean,
    Base::Byte,
    Base::Char,
    Base::Short,
    Base::Int,
    Base::Long,
    Base::Float,
    Base::Double,
];

/// What is kept of arrays: one of each for each array, and what the descriptors are the ends of.
#[derive(Drop)]
pub struct Arrays {
    /// The descriptors of base types and of classes under the most dimensions: those of base types, and then those of classes by their numbers.
    pub wholes: Vec<Name>,
    pub shapes: Vec<Shape>,
    /// The numbers of what their elements are.
    pub components: Vec<Option<u32>>,
}

// Whether a text begins as the descriptor of an array does.
fn begins_array(text: &[u8]) -> bool
    ensures { result ≡ begins_array text.now }
{
    matches!(text, [b'[', ..])
}

/// There is no memory for a class whose name begins as the descriptor of an array does.
pub fn check_names(table: &ClassTable) -> Result<(), TypesError>
    ensures { OnOk result (ArePlain table.now) }
{
    for class in 0..table.class_count() {
        if begins_array(table.name_of(class)) {
            return Err(TypesError::Memory);
        }
    }
    Ok(())
}

// ---- descriptors

fn base_place(base: Base) -> usize
    ensures { result ≡ base_place base }
{
    match base {
        Base::Boolean => 0,
        Base::Byte => 1,
        Base::Char => 2,
        Base::Short => 3,
        Base::Int => 4,
        Base::Long => 5,
        Base::Float => 6,
        Base::Double => 7,
    }
}

fn whole_place(of: ElementType) -> usize
    ensures { result ≡ whole_place of }
{
    match of {
        ElementType::Base(base) => base_place(base),
        ElementType::Class(class) => 8 + class as usize,
    }
}

/// The descriptor of an array, the end of the one under the most dimensions.
pub fn text_in(wholes: &[Name], shape: Shape) -> &[u8]
    ensures { result.now ≡ text_in wholes.now shape }
{
    let Some(whole) = wholes.get(whole_place(shape.of)) else {
        return &[];
    };
    let text = whole.as_slice();
    let start = usize::from(255 - shape.dims).min(text.len());
    &text[start..]
}

#[tactic(auto, unfolding(crate::specs::Kept::whole_text))]
fn whole_text(alloc: Global, of: Of) -> Result<Name, AllocError>
    ensures { IfOk result (λ text. text ≡ whole_text of) }
{
    spell_type(alloc, &Ty { dims: 255, of })
}

// The descriptors of base types under the most dimensions.
fn base_wholes(alloc: Global) -> Result<Vec<Name>, AllocError>
    ensures { IfOk result (λ wholes. wholes.items ≡ map whole_of_base all_bases) }
{
    let mut wholes = Vec::new(alloc);
    for base in &BASES {
        wholes.push(whole_text(alloc, Of::Base(*base))?)?;
    }
    Ok(wholes)
}

// Appends those of classes.
fn add_wholes(alloc: Global, wholes: &mut Vec<Name>, table: &ClassTable) -> Result<(), AllocError>
    ensures { OnOk result (wholes.new.items ≡ wholes.old.items ++ map whole_of_class table.now) }
{
    for class in 0..table.class_count() {
        let name = Name::from_slice(alloc, table.name_of(class))?;
        wholes.push(whole_text(alloc, Of::Class(name))?)?;
    }
    Ok(())
}

fn wholes_of(alloc: Global, table: &ClassTable) -> Result<Vec<Name>, AllocError>
    ensures { IfOk result (λ wholes. wholes.items ≡ wholes_of table.now) }
{
    let mut wholes = base_wholes(alloc)?;
    add_wholes(alloc, &mut wholes, table)?;
    Ok(wholes)
}

// The place of a text, by halving.
fn place_in(wholes: &[Name], shapes: &[Shape], text: &[u8]) -> Option<u32>
    requires rise { DoTextsRise (map (text_in wholes.now) shapes.now) }
    requires few { length shapes.now < 2 ^ 32 }
    ensures { result ≡ place_of_text (map (text_in wholes.now) shapes.now) text.now }
{
    match shapes.binary_search_by(|shape| text_in(wholes, *shape).cmp(text)) {
        Ok(place) => Some(place as u32),
        Err(_) => None,
    }
}

/// The number of the class of this name, or of the array of this descriptor.
pub fn number_in(table: &ClassTable, wholes: &[Name], shapes: &[Shape], text: &[u8]) -> Option<u32>
    requires rise { DoTextsRise (map (text_in wholes.now) shapes.now) }
    requires few { length table.now + length shapes.now < 2 ^ 32 }
    ensures { result ≡ number_among table.now (map (text_in wholes.now) shapes.now) text.now }
{
    match table.class_named(text) {
        Some(class) => Some(class),
        None => Some(table.class_count() + place_in(wholes, shapes, text)?),
    }
}

// The name of the class, or the descriptor of the array, that the elements are.
fn component_text<'i>(table: &'i ClassTable, wholes: &'i [Name], shape: Shape) -> Option<&'i [u8]>
    requires spelled { wholes.now ≡ wholes_of table.now }
    requires some { 1 ≤ shape.dims }
    requires few { shape.dims ≤ 255 }
    requires element { IsElement table.now shape.of }
    ensures { option_map (λ text. text.now) result ≡ component_text (shape_type table.now shape) }
{
    let Shape { dims, of } = shape;
    if dims > 1 {
        return Some(text_in(wholes, Shape { dims: dims - 1, of }));
    }
    match of {
        ElementType::Base(_) => None,
        ElementType::Class(class) => Some(table.name_of(class)),
    }
}

// The number of what the elements are.
fn component_of(table: &ClassTable, wholes: &[Name], shapes: &[Shape], shape: Shape) -> Option<u32>
    requires spelled { wholes.now ≡ wholes_of table.now }
    requires rise { DoTextsRise (map (text_in wholes.now) shapes.now) }
    requires few { length table.now + length shapes.now < 2 ^ 32 }
    requires some { 1 ≤ shape.dims }
    requires element { IsElement table.now shape.of }
    ensures { result ≡ component_in table.now (map (text_in wholes.now) shapes.now) (shape_type table.now shape) }
{
    let text = component_text(table, wholes, shape)?;
    number_in(table, wholes, shapes, text)
}

// The numbers of what the elements of arrays are.
fn components_of(
    alloc: Global,
    table: &ClassTable,
    wholes: &[Name],
    shapes: &[Shape],
) -> Result<Vec<Option<u32>>, AllocError>
    requires spelled { wholes.now ≡ wholes_of table.now }
    requires arrays { AreArrays table.now (map (shape_type table.now) shapes.now) }
    requires elements { AreElements table.now shapes.now }
    requires few { length table.now + length shapes.now < 2 ^ 32 }
    ensures { IfOk result (λ components. components.items ≡ map (component_in table.now (map (text_in wholes.now) shapes.now)) (map (shape_type table.now) shapes.now)) }
{
    let mut components = Vec::new(alloc);
    for shape in shapes {
        components.push(component_of(table, wholes, shapes, *shape))?;
    }
    Ok(components)
}

impl Arrays {
    /// What is kept of these.
    pub fn of(alloc: Global, table: &ClassTable, shapes: Vec<Shape>) -> Result<Arrays, AllocError>
        requires arrays { AreArrays table.now (map (shape_type table.now) shapes.items) }
        requires elements { AreElements table.now shapes.items }
        requires few { length table.now + length shapes.items < 2 ^ 32 }
        ensures kept { IfOk result (λ arrays. AreKept table.now (map (shape_type table.now) shapes.items) arrays) }
        ensures shapes { IfOk result (λ arrays. arrays.shapes.items ≡ shapes.items) }
    {
        let wholes = wholes_of(alloc, table)?;
        let components = components_of(alloc, table, &wholes, &shapes)?;
        Ok(Arrays {
            wholes,
            shapes,
            components,
        })
    }
}
