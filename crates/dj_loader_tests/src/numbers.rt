use crate::set::image;
use dj_image::Image;
use std::alloc::Global;

const COUNT: u32 = 42;

// The numbers of classes by their names, and of arrays by their descriptors.
const NUMBERS: [(&str, Option<u32>); 28] = [
    ("A", Some(0)),
    ("C", Some(1)),
    ("I", Some(2)),
    ("java/io/Serializable", Some(5)),
    ("java/lang/Object", Some(21)),
    ("java/lang/UnsupportedOperationException", Some(29)),
    ("p/B", Some(30)),
    ("x/X", Some(31)),
    ("[B", Some(32)),
    ("[C", Some(33)),
    ("[I", Some(34)),
    ("[J", Some(35)),
    ("[LC;", Some(36)),
    ("[LI;", Some(37)),
    ("[[I", Some(38)),
    ("[[J", Some(39)),
    ("[[[I", Some(40)),
    ("[[[J", Some(41)),
    ("x/Y", None),
    ("B", None),
    ("[LA;", None),
    ("[[[[J", None),
    ("[S", None),
    ("[Z", None),
    ("[[LC;", None),
    ("java/lang/Thread", None),
    ("LC;", None),
    ("djvm/Stop", None),
];

// And the other way.
const NAMES: [(u32, &str); 5] = [
    (0, "A"),
    (5, "java/io/Serializable"),
    (31, "x/X"),
    (32, "[B"),
    (41, "[[[J"),
];

fn is_name(image: &Image, class: u32, name: &str) -> bool {
    class < image.class_count() && image.name_of(class) == name.as_bytes()
}

fn are_numbered(image: &Image) -> bool {
    NUMBERS.iter().all(|(name, class)| image.class_named(name.as_bytes()) == *class)
}

fn are_named(image: &Image) -> bool {
    NAMES
        .iter()
        .all(|(class, name)| is_name(image, *class, name))
}

#[test]
fn numbers_and_names(rt: HostRuntime) {
    let image = image(rt.alloc());
    assert!(rt; matches!(&image, Some(image) if image.class_count() == COUNT));
    assert!(rt; matches!(&image, Some(image) if are_numbered(image)));
    assert!(rt; matches!(&image, Some(image) if are_named(image)));
}
