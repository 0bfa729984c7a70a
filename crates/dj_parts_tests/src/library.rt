use dj_library::{LibraryHead, deterministic, heads, raw, sandboxed};
use dj_library_types::{LibClass, Library};
use std::alloc::Global;

// A class: its name, its flags, and the number of its methods in the deterministic and in the raw library.
type Row = (&'static [u8], u16, usize, usize);

// The flags are those of the classes of this name in a Java runtime.
const CLASSES: [Row; 25] = [
    (b"java/lang/Object", 0x0021, 4, 4),
    (b"java/lang/String", 0x0031, 18, 18),
    (b"java/lang/StringBuilder", 0x0031, 10, 10),
    (b"java/lang/Math", 0x0031, 6, 6),
    (b"java/lang/System", 0x0031, 2, 4),
    (b"java/lang/Comparable", 0x0601, 1, 1),
    (b"java/lang/CharSequence", 0x0601, 3, 3),
    (b"java/lang/Runnable", 0x0601, 1, 1),
    (b"java/lang/Cloneable", 0x0601, 0, 0),
    (b"java/io/Serializable", 0x0601, 0, 0),
    (b"java/lang/Throwable", 0x0021, 5, 5),
    (b"java/lang/Exception", 0x0021, 3, 3),
    (b"java/lang/Error", 0x0021, 3, 3),
    (b"java/lang/RuntimeException", 0x0021, 3, 3),
    (b"java/lang/ArithmeticException", 0x0021, 2, 2),
    (b"java/lang/ArrayStoreException", 0x0021, 2, 2),
    (b"java/lang/ClassCastException", 0x0021, 2, 2),
    (b"java/lang/IllegalArgumentException", 0x0021, 3, 3),
    (b"java/lang/IllegalStateException", 0x0021, 3, 3),
    (b"java/lang/IndexOutOfBoundsException", 0x0021, 2, 2),
    (b"java/lang/NegativeArraySizeException", 0x0021, 2, 2),
    (b"java/lang/NullPointerException", 0x0021, 2, 2),
    (b"java/lang/UnsupportedOperationException", 0x0021, 3, 3),
    (b"java/lang/ArrayIndexOutOfBoundsException", 0x0021, 2, 2),
    (b"java/lang/StringIndexOutOfBoundsException", 0x0021, 2, 2),
];

// The methods of System in the raw library.
const SYSTEM: [&[u8]; 4] = [
    b"identityHashCode",
    b"arraycopy",
    b"nanoTime",
    b"currentTimeMillis",
];

fn is_class(class: &LibClass, row: Row, count: usize) -> bool {
    class.name.as_slice() == row.0
        && class.flags == row.1
        && class.methods.as_slice().len() == count
}

fn are_classes(library: &Library, is_raw: bool) -> bool {
    let classes = library.as_slice();
    for i in 0..CLASSES.len() {
        let row = CLASSES[i];
        let count = if is_raw { row.3 } else { row.2 };
        if classes.len() <= i || !is_class(&classes[i], row, count) {
            return false;
        }
    }
    classes.len() == CLASSES.len()
}

fn is_system(class: &LibClass) -> bool {
    let methods = class.methods.as_slice();
    for i in 0..SYSTEM.len() {
        if methods.len() <= i || methods[i].name.as_slice() != SYSTEM[i] {
            return false;
        }
    }
    true
}

fn are_heads(heads: &[LibraryHead]) -> bool {
    for i in 0..CLASSES.len() {
        if heads.len() <= i || heads[i].name != CLASSES[i].0 || heads[i].flags != CLASSES[i].1 {
            return false;
        }
    }
    heads.len() == CLASSES.len()
}

fn is_deterministic(alloc: Global) -> bool {
    match deterministic(alloc) {
        Ok(library) => are_classes(&library, false),
        Err(_) => false,
    }
}

fn is_raw(alloc: Global) -> bool {
    match raw(alloc) {
        Ok(library) => {
            are_classes(&library, true)
                && match library.as_slice().get(4) {
                    Some(class) => is_system(class),
                    None => false,
                }
        }
        Err(_) => false,
    }
}

// The methods that rewritten code calls.
const COUNTED: [&[u8]; 6] = [
    b"recordJump",
    b"recordInvocation",
    b"recordThrow",
    b"recordAllocation",
    b"recordArray",
    b"checkCatch",
];

fn is_named(class: &LibClass, name: &[u8]) -> bool {
    class.name.as_slice() == name
}

fn are_counted(class: &LibClass) -> bool {
    let methods = class.methods.as_slice();
    for i in 0..COUNTED.len() {
        if methods.len() <= i || methods[i].name.as_slice() != COUNTED[i] {
            return false;
        }
    }
    methods.len() == COUNTED.len()
}

fn are_sandboxed(classes: &[LibClass]) -> bool {
    classes.len() == 27
        && is_named(&classes[0], b"sandbox/java/lang/Object")
        && is_named(&classes[25], b"djvm/Accounter")
        && are_counted(&classes[25])
        && is_named(&classes[26], b"djvm/Stop")
}

fn is_sandboxed(alloc: Global) -> bool {
    match sandboxed(alloc) {
        Ok(library) => are_sandboxed(library.as_slice()),
        Err(_) => false,
    }
}

#[test]
fn libraries_have_their_classes(rt: HostRuntime) {
    assert!(rt;
        is_deterministic(rt.alloc())
            && is_raw(rt.alloc())
            && is_sandboxed(rt.alloc())
            && are_heads(heads())
    );
}
