ghost use Rattle.std.specs.Prelude.{◌≡◌, IsTrue};
ghost use Rattle.dj_model.specs.trusted.Linking.{array_supertypes, is_among, is_below, is_subtype, takes_arrays};
ghost use Rattle.dj_resolution.specs.Linked.{prefix_of};
ghost use Rattle.dj_numbering.specs.Typed.{is_known_of};
ghost use Rattle.dj_numbering.specs.Shapes.{IsElement, element_in, element_of, shape_in, shape_type};

use dj_class_table::ClassTable;
use dj_names::{Base, Of, Ty};
use dj_resolution::{BaseNames, Linker};

/// What an array's elements are.
#[derive(Clone, Copy, Debug, PartialEq, Eq)]
pub enum ElementType {
    Base(Base),
    /// The class of this number.
    Class(u32),
}

/// A type: an element under this many dimensions.
#[derive(Clone, Copy, Debug, PartialEq, Eq)]
pub struct Shape {
    pub dims: u8,
    pub of: ElementType,
}

fn element_of(table: &ClassTable, of: &Of) -> ElementType
    requires { IsTrue (is_known_of table.now of.now) }
    ensures { result ≡ element_in table.now of.now }
{
    match of {
        Of::Base(base) => ElementType::Base(*base),
        Of::Class(name) => match table.class_named(name.as_slice()) {
            Some(class) => ElementType::Class(class),
            None => unreachable!(),
        },
    }
}

/// The shape of a type, of which the class is there.
pub fn shape_of(table: &ClassTable, ty: &Ty) -> Shape
    requires { IsTrue (is_known_of table.now ty.now.of) }
    ensures { result ≡ shape_in table.now ty.now }
{
    Shape {
        dims: ty.dims,
        of: element_of(table, &ty.of),
    }
}

// Whether each array is of this class (JVMS 4.10.1.2).
fn is_above_arrays(base: BaseNames, name: &[u8]) -> bool
    ensures { result ≡ is_among (array_supertypes (prefix_of base)) name.now }
{
    match base {
        BaseNames::Plain => {
            name == b"java/lang/Object".as_slice()
                || name == b"java/lang/Cloneable".as_slice()
                || name == b"java/io/Serializable".as_slice()
        }
        BaseNames::Sandbox => {
            name == b"sandbox/java/lang/Object".as_slice()
                || name == b"sandbox/java/lang/Cloneable".as_slice()
                || name == b"sandbox/java/io/Serializable".as_slice()
        }
    }
}

// Whether an array with elements of this type takes arrays as elements.
fn takes_arrays(linker: &Linker, of: ElementType) -> bool
    requires { IsElement linker.now.program of }
    ensures { result ≡ takes_arrays linker.now.prefix (element_of linker.now.program of) }
{
    match of {
        ElementType::Base(_) => false,
        ElementType::Class(class) => is_above_arrays(
            linker.base(),
            linker.classes().name_of(class),
        ),
    }
}

// Whether an element is of the type of another.
fn is_below(linker: &Linker, a: ElementType, b: ElementType) -> bool
    requires first { IsElement linker.now.program a }
    requires second { IsElement linker.now.program b }
    ensures { result ≡ is_below linker.now.program (element_of linker.now.program a) (element_of linker.now.program b) }
{
    match (a, b) {
        (ElementType::Base(a), ElementType::Base(b)) => a == b,
        (ElementType::Class(a), ElementType::Class(b)) => linker.is_subclass(a, b),
        _ => false,
    }
}

/// Whether a type is a subtype of another (JVMS 4.10.1.2).
#[tactic(auto, unfolding(dj_model::specs::trusted::Linking::is_subtype))]
pub fn is_subtype(linker: &Linker, a: Shape, b: Shape) -> bool
    requires first { IsElement linker.now.program a.of }
    requires second { IsElement linker.now.program b.of }
    ensures { result ≡ is_subtype linker.now.program linker.now.prefix (shape_type linker.now.program a) (shape_type linker.now.program b) }
{
    if b.dims < a.dims {
        return takes_arrays(linker, b.of);
    }
    a.dims == b.dims && is_below(linker, a.of, b.of)
}
