ghost use Rattle.std.specs.Prelude.{◌≡◌, [], map, IfOk};
ghost use Rattle.dj_names.specs.Tests.{field_descriptor_test, array_descriptor_test};
ghost use Rattle.dj_pool.specs.trusted.Pool.{Utf8, Hole};
ghost use Rattle.dj_pool.specs.Views.{constant_of};
ghost use Rattle.dj_pool.specs.Tests.{kinds_of};

use crate::pool::Entry;
use crate::scan::names_of;
use dj_names::{is_array_descriptor, is_field_descriptor, is_method_descriptor};
use std::alloc::{AllocError, Global};

/// What an entry is as a text. All of these are false for an entry that is no text.
#[derive(Clone, Copy, Debug)]
pub struct TextKinds {
    /// Whether it is a text at all.
    pub text: bool,
    /// A class or interface name (JVMS 4.2.1).
    pub class_name: bool,
    /// The descriptor of an array (JVMS 4.4.1).
    pub array_descriptor: bool,
    /// An unqualified name (JVMS 4.2.2).
    pub unqualified_name: bool,
    /// An unqualified name that a method may have (JVMS 4.2.2).
    pub method_name: bool,
    /// A field's descriptor (JVMS 4.3.2).
    pub field_descriptor: bool,
    /// A method's descriptor (JVMS 4.3.3).
    pub method_descriptor: bool,
}

/// What the empty text is: a text, and nothing else.
fn no_bytes() -> TextKinds
    ensures { result ≡ kinds_of (Utf8 []) }
{
    TextKinds {
        text: true,
        class_name: false,
        array_descriptor: false,
        unqualified_name: false,
        method_name: false,
        field_descriptor: false,
        method_descriptor: false,
    }
}

// Whether the text is the descriptor of an array, which is a field's descriptor too.
#[tactic(auto, using(crate::proofs::Scanned::array_is_field))]
fn is_array(text: &[u8], field_descriptor: bool) -> bool
    requires { field_descriptor ≡ field_descriptor_test text.now }
    ensures { result ≡ array_descriptor_test text.now }
{
    if field_descriptor {
        is_array_descriptor(text)
    } else {
        false
    }
}

#[tactic(auto, using(std::proofs::lemmas::List::nil_from_length))]
fn kinds_of_text(text: &[u8]) -> TextKinds
    ensures { result ≡ kinds_of (Utf8 text.now) }
{
    if text.len() == 0 {
        return no_bytes();
    }
    let names = names_of(text);
    let field_descriptor = is_field_descriptor(text);
    TextKinds {
        text: true,
        class_name: names.class_name,
        array_descriptor: is_array(text, field_descriptor),
        unqualified_name: names.unqualified_name,
        method_name: names.method_name,
        field_descriptor,
        method_descriptor: is_method_descriptor(text),
    }
}

fn no_text() -> TextKinds
    ensures { result ≡ kinds_of Hole }
{
    TextKinds {
        text: false,
        class_name: false,
        array_descriptor: false,
        unqualified_name: false,
        method_name: false,
        field_descriptor: false,
        method_descriptor: false,
    }
}

fn kinds_of_entry(entry: &Entry<'_>) -> TextKinds
    ensures { result ≡ kinds_of (constant_of entry.now) }
{
    match entry {
        Entry::Utf8(text) => kinds_of_text(text),
        _ => no_text(),
    }
}

/// What each entry is as a text.
pub(crate) fn kinds_of_entries(
    alloc: Global,
    entries: &[Entry<'_>],
) -> Result<Vec<TextKinds>, AllocError>
    ensures { IfOk result (λ kinds. kinds.items ≡ map kinds_of (map constant_of entries.now)) }
{
    let mut kinds = Vec::with_capacity(alloc, entries.len())?;
    for entry in entries {
        kinds.push(kinds_of_entry(entry))?;
    }
    Ok(kinds)
}
