ghost use Rattle.std.specs.Prelude.{◌<◌, ◌≤◌, length};

use crate::members::class_of;
use crate::set::image;
use dj_image::Image;
use dj_library_types::Classes;

// Two classes or arrays.
type Pair = (&'static str, &'static str);

const PAIRS: [Pair; 14] = [
    ("A", "I"),
    ("C", "A"),
    ("A", "C"),
    ("I", "java/lang/Object"),
    ("java/lang/Object", "C"),
    ("java/lang/String", "java/lang/CharSequence"),
    ("x/X", "java/lang/Throwable"),
    ("[I", "java/lang/Cloneable"),
    ("[I", "[B"),
    ("[LC;", "[LI;"),
    ("[LI;", "[LC;"),
    ("[[I", "[I"),
    ("[[[J", "java/io/Serializable"),
    ("[[J", "java/lang/Comparable"),
];

const NAMES: [&str; 10] = [
    "A",
    "C",
    "I",
    "p/B",
    "x/X",
    "java/lang/Object",
    "[B",
    "[[[J",
    "x/Y",
    "LC;",
];

// The superclass of the first, what its elements are, and whether it is a subtype of the second.
fn reported<C: Classes>(classes: &C, a: u32, b: u32) -> (Option<u32>, Option<u32>, bool)
    requires first { a < length (C.types classes.now) }
    requires second { b < length (C.types classes.now) }
{
    (
        classes.super_of(a),
        classes.component(a),
        classes.sub_type(a, b),
    )
}

// The number of the class of this name, or of the array of this descriptor, among this many.
fn number_of<C: Classes>(classes: &C, count: u32, name: &[u8]) -> Option<u32>
    requires { count ≤ length (C.types classes.now) }
{
    for class in 0..count {
        if classes.name_of(class) == name {
            return Some(class);
        }
    }
    None
}

// The class String, the arrays of chars, and the class of the object that stops a run.
fn alone<C: Classes>(classes: &C) -> (u32, u32, Option<u32>) {
    (classes.string(), classes.chars(), classes.stop())
}

fn is_reported(image: &Image, pair: &Pair) -> Option<bool> {
    let a = class_of(image, pair.0)?;
    let b = class_of(image, pair.1)?;
    let (above, component, below) = reported(image, a, b);
    Some(
        above == image.super_of(a)
            && component == image.component(a)
            && below == image.sub_type(a, b),
    )
}

fn is_numbered(image: &Image, name: &str) -> bool {
    let name = name.as_bytes();
    number_of(image, image.class_count(), name) == image.class_named(name)
}

fn are_alone(image: &Image) -> bool {
    let (string, chars, stop) = alone(image);
    string == image.string()
        && chars == image.chars()
        && stop == image.stop()
        && Some(string) == image.class_named(b"java/lang/String")
        && Some(chars) == image.class_named(b"[C")
        && stop.is_none()
}

#[test]
fn reported_to_any_caller(rt: HostRuntime) {
    let image = image(rt.alloc());
    for pair in &PAIRS {
        assert!(rt;
            matches!(&image, Some(image) if is_reported(image, pair) == Some(true)),
            "{pair:?}"
        );
    }
    for name in NAMES {
        assert!(rt;
            matches!(&image, Some(image) if is_numbered(image, name)),
            "{name}"
        );
    }
    assert!(rt; matches!(&image, Some(image) if are_alone(image)));
}
