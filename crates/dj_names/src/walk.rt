ghost use Rattle.std.specs.Prelude.{◌≡◌, ℕ, [], ◌<◌, ◌↔◌, length, option_map, is_some, IsTrue, IfSome, IfOk};
ghost use Rattle.dj_names.specs.trusted.Descriptors.{IsFieldDescriptor, IsMethodDescriptor, IsArrayDescriptor, type_slots};
ghost use Rattle.dj_names.specs.trusted.DescReading.{base_at, dims_read, name_read, class_read, of_read, type_read, params_read, field_read, return_read, method_read};
ghost use Rattle.dj_names.specs.DescReading.{element_of};
ghost use Rattle.dj_names.specs.Tests.{field_descriptor_test, method_descriptor_test, array_descriptor_test};

use crate::descriptor::Base;
use crate::name::names_class;

/// What a type or an array's element is, and where it is in the text.
#[derive(Clone, Copy)]
pub enum ElementView<'a> {
    Base(Base),
    Class(&'a [u8]),
}

/// Whether the text is a field's descriptor (JVMS 4.3.2).
pub fn is_field_descriptor(text: &[u8]) -> bool
    ensures means { IsTrue result ↔ IsFieldDescriptor text.now }
    ensures computes { result ≡ field_descriptor_test text.now }
{
    reads_field(text)
}

/// Whether the text is a method's descriptor (JVMS 4.3.3).
pub fn is_method_descriptor(text: &[u8]) -> bool
    ensures means { IsTrue result ↔ IsMethodDescriptor text.now }
    ensures computes { result ≡ method_descriptor_test text.now }
{
    reads_method(text)
}

/// Whether the text is the descriptor of an array (JVMS 4.3.2).
pub fn is_array_descriptor(text: &[u8]) -> bool
    ensures means { IsTrue result ↔ IsArrayDescriptor text.now }
    ensures computes { result ≡ array_descriptor_test text.now }
{
    match field_dims(text) {
        Some(dims) => dims != 0,
        None => false,
    }
}

/// Whether the text is one type, of at most 255 dimensions.
fn reads_field(text: &[u8]) -> bool
    ensures { result ≡ is_some (field_read text.now) }
{
    field_dims(text).is_some()
}

/// The dimensions of the one type that the text is.
#[tactic(auto, unfolding(crate::specs::trusted::DescReading::field_read))]
fn field_dims(text: &[u8]) -> Option<u8>
    ensures { result ≡ option_map (λ ty. ty.dims) (field_read text.now) }
{
    match type_at(text) {
        Some((dims, _, rest)) => { if rest.is_empty() { Some(dims) } else { None } }
        None => None,
    }
}

#[tactic(auto, unfolding(crate::specs::trusted::DescReading::method_read))]
fn reads_method(text: &[u8]) -> bool
    ensures { result ≡ is_some (method_read text.now) }
{
    match text {
        [] => false,
        [first, rest @ ..] => {
            if *first != b'(' {
                return false;
            }
            match after_params(rest) {
                Some(after) => reads_return(after),
                None => false,
            }
        }
    }
}

#[tactic(auto, unfolding(crate::specs::trusted::DescReading::return_read))]
fn reads_return(text: &[u8]) -> bool
    ensures { result ≡ is_some (return_read text.now) }
{
    match text {
        [] => false,
        [first, rest @ ..] => {
            if *first == b'V' {
                rest.is_empty()
            } else {
                reads_field(text)
            }
        }
    }
}

/// The bytes after the parameters and their closing parenthesis.
#[tactic(auto, unfolding(crate::specs::trusted::DescReading::params_read))]
fn after_params(bytes: &[u8]) -> Option<&[u8]>
    ensures { option_map (λ x. x.now) result ≡ option_map (λ x. x.1) (params_read (length bytes.now) 0 bytes.now) }
{
    let mut slots: u16 = 0;
    let mut rest = bytes;
    for _ in 0..bytes.len() {
        match rest {
            [] => return None,
            [first, after @ ..] => {
                if *first == b')' {
                    return Some(after);
                }
                match type_at(rest) {
                    Some((dims, element, after)) => {
                        slots += slots_at(dims, element);
                        if 255 < slots {
                            return None;
                        }
                        rest = after;
                    }
                    None => return None,
                }
            }
        }
    }
    None
}

/// The slots of a type.
fn slots_at(dims: u8, element: ElementView<'_>) -> u16
    ensures { result ≡ type_slots (record { dims = dims; of = element_of element.entry }) }
{
    if dims != 0 {
        return 1;
    }
    match element {
        ElementView::Base(Base::Long | Base::Double) => 2,
        _ => 1,
    }
}

/// The type that the bytes begin with, and the bytes after it.
#[tactic(auto, unfolding(crate::specs::trusted::DescReading::type_read))]
pub fn type_at(bytes: &[u8]) -> Option<(u8, ElementView<'_>, &[u8])>
    ensures { option_map (λ x. (record { dims = x.0; of = element_of x.1 }, x.2.now)) result ≡ type_read bytes.now }
{
    match dims_at(bytes) {
        None => None,
        Some((dims, rest)) => match element_at(rest) {
            None => None,
            Some((element, after)) => Some((dims, element, after)),
        },
    }
}

/// How many brackets the bytes begin with, and the bytes after them.
#[tactic(auto, unfolding(crate::specs::trusted::DescReading::dims_read))]
fn dims_at(bytes: &[u8]) -> Option<(u8, &[u8])>
    ensures { option_map (λ x. (x.0, x.1.now)) result ≡ dims_read 0 bytes.now }
{
    let mut dims: u8 = 0;
    let mut rest = bytes;
    while let [byte, after @ ..] = rest {
        if *byte != b'[' {
            return Some((dims, rest));
        }
        if dims == 255 {
            return None;
        }
        dims += 1;
        rest = after;
    }
    Some((dims, rest))
}

#[tactic(auto, unfolding(crate::specs::trusted::DescReading::of_read))]
fn element_at(bytes: &[u8]) -> Option<(ElementView<'_>, &[u8])>
    ensures { option_map (λ x. (element_of x.0, x.1.now)) result ≡ of_read bytes.now }
{
    match bytes {
        [] => None,
        [first, after @ ..] => {
            if *first == b'L' {
                return class_at(after);
            }
            match base_of(*first) {
                Some(base) => Some((ElementView::Base(base), after)),
                None => None,
            }
        }
    }
}

fn base_of(letter: u8) -> Option<Base>
    ensures { result ≡ base_at letter }
{
    match letter {
        b'Z' => Some(Base::Boolean),
        b'B' => Some(Base::Byte),
        b'C' => Some(Base::Char),
        b'S' => Some(Base::Short),
        b'I' => Some(Base::Int),
        b'J' => Some(Base::Long),
        b'F' => Some(Base::Float),
        b'D' => Some(Base::Double),
        _ => None,
    }
}

#[tactic(auto, unfolding(crate::specs::trusted::DescReading::class_read))]
fn class_at(bytes: &[u8]) -> Option<(ElementView<'_>, &[u8])>
    ensures { option_map (λ x. (element_of x.0, x.1.now)) result ≡ class_read bytes.now }
{
    match name_at(bytes) {
        None => None,
        Some((name, after)) => {
            if names_class(name) {
                Some((ElementView::Class(name), after))
            } else {
                None
            }
        }
    }
}

/// The bytes up to the first semicolon, and those after it.
#[tactic(auto, unfolding(crate::specs::trusted::DescReading::name_read))]
fn name_at(bytes: &[u8]) -> Option<(&[u8], &[u8])>
    ensures { option_map (λ x. (x.0.now, x.1.now)) result ≡ name_read [] bytes.now }
{
    let mut at = 0;
    let mut rest = bytes;
    while let [byte, after @ ..] = rest {
        if *byte == b';' {
            return Some((&bytes[..at], after));
        }
        at += 1;
        rest = after;
    }
    None
}
