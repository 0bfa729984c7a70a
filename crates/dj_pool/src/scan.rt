ghost use Rattle.std.specs.Prelude.{◌≡◌, false, nat_eq, IsTrue};
ghost use Rattle.dj_names.specs.Tests.{class_name_test, unqualified_name_test, method_name_test, modified_utf8_test};
ghost use Rattle.dj_pool.specs.Scan.{is_stop_byte, is_angle, is_foreign, is_special, has_method_angles, marks_of, has_foreign};

use dj_names::{is_class_name, is_modified_utf8};

/// Which bytes a text has somewhere.
#[derive(Clone, Copy)]
pub struct ByteMarks {
    /// One of `.`, `;` and `[`.
    pub stop: bool,
    pub slash: bool,
    /// One of `<` and `>`.
    pub angle: bool,
}

fn is_stop_byte(byte: u8) -> bool
    ensures { result ≡ is_stop_byte byte }
{
    (byte == b'.') | (byte == b';') | (byte == b'[')
}

fn is_angle(byte: u8) -> bool
    ensures { result ≡ is_angle byte }
{
    (byte == b'<') | (byte == b'>')
}

// Most letters are greater than all bytes that are looked for.
fn is_plain(byte: u8) -> bool
    ensures { IsTrue result → (is_stop_byte byte ≡ false) × (nat_eq byte 47 ≡ false) × (is_angle byte ≡ false) }
{
    b'[' < byte
}

// One pass.
fn marks_of(text: &[u8]) -> ByteMarks
    ensures { result ≡ marks_of text.now }
{
    let mut stop = false;
    let mut slash = false;
    let mut angle = false;
    for byte in text {
        if !is_plain(*byte) {
            stop = stop | is_stop_byte(*byte);
            slash = slash | (*byte == b'/');
            angle = angle | is_angle(*byte);
        }
    }
    ByteMarks { stop, slash, angle }
}

/// Which names a text is.
#[derive(Clone, Copy)]
pub struct NameKinds {
    pub class_name: bool,
    pub unqualified_name: bool,
    pub method_name: bool,
}

fn is_special(text: &[u8]) -> bool
    ensures { result ≡ is_special text.now }
{
    text == b"<init>".as_slice() || text == b"<clinit>".as_slice()
}

// Whether the text, which has these bytes, is an unqualified name.
fn is_unqualified(text: &[u8], marks: ByteMarks) -> bool
    requires { marks ≡ marks_of text.now }
    ensures { result ≡ unqualified_name_test text.now }
{
    if marks.stop {
        return false;
    }
    if marks.slash {
        return false;
    }
    text.len() != 0
}

// Whether the text, which has these bytes, is a class name: it is looked at once more only where it has slashes.
fn is_class(text: &[u8], marks: ByteMarks) -> bool
    requires { marks ≡ marks_of text.now }
    ensures { result ≡ class_name_test text.now }
{
    if marks.stop {
        return false;
    }
    if marks.slash {
        return is_class_name(text);
    }
    text.len() != 0
}

// Whether an unqualified name, which has these bytes, may be a method's.
fn has_method_angles(text: &[u8], marks: ByteMarks) -> bool
    requires { marks ≡ marks_of text.now }
    ensures { result ≡ has_method_angles text.now }
{
    if marks.angle { is_special(text) } else { true }
}

/// Which names a text is, by one pass where it has no slash.
pub(crate) fn names_of(text: &[u8]) -> NameKinds
    ensures class_name { result.class_name ≡ class_name_test text.now }
    ensures unqualified_name { result.unqualified_name ≡ unqualified_name_test text.now }
    ensures method_name { result.method_name ≡ method_name_test text.now }
{
    let marks = marks_of(text);
    let unqualified_name = is_unqualified(text, marks);
    let angles = has_method_angles(text, marks);
    NameKinds {
        class_name: is_class(text, marks),
        unqualified_name,
        method_name: unqualified_name && angles,
    }
}

fn is_foreign(byte: u8) -> bool
    ensures { result ≡ is_foreign byte }
{
    (byte == 0) | (127 < byte)
}

// One pass that never stops early.
fn has_foreign(text: &[u8]) -> bool
    ensures { result ≡ has_foreign text.now }
{
    let mut foreign = false;
    for byte in text {
        foreign = foreign | is_foreign(*byte);
    }
    foreign
}

/// Whether the text is modified UTF-8 (JVMS 4.4.7).
pub(crate) fn is_utf8(text: &[u8]) -> bool
    ensures { result ≡ modified_utf8_test text.now }
{
    !has_foreign(text) || is_modified_utf8(text)
}
