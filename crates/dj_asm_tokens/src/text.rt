ghost use Rattle.std.specs.Prelude.{◌≡◌, ◌++◌, true, OnOk, IfOk};
ghost use Rattle.dj_names.specs.trusted.ModifiedUtf8.{unit_text, units_text};
ghost use Rattle.dj_asm_tokens.specs.trusted.Words.{word_units};
ghost use Rattle.dj_asm_tokens.specs.Texts.{text_view, test_of, is_bare};
ghost use Rattle.std.specs.List.{list_all};

use crate::unit::unit_at;
use dj_names::{
    Name, is_array_descriptor, is_class_name, is_field_descriptor, is_method_descriptor,
    is_method_name, is_unqualified_name,
};
use std::alloc::{AllocError, Global};

/// The bytes of a text: those of the source where none is escaped, and else a copy.
#[derive(Drop)]
pub enum Text<'t> {
    /// Bytes of the source.
    Lent(&'t [u8]),
    /// A copy.
    Owned(Name),
}

impl Text<'_> {
    ghost use Rattle.std.specs.Prelude.{◌≡◌};
    ghost use Rattle.dj_asm_tokens.specs.Texts.{text_view};

    /// The bytes, borrowed.
    pub fn as_slice(&self) -> &[u8]
        ensures { result.now ≡ text_view self.now }
    {
        match self {
            Text::Lent(bytes) => bytes,
            Text::Owned(name) => name.as_slice(),
        }
    }
}

/// What a name has to be, by its place.
#[derive(Clone, Copy)]
pub enum NameKind {
    /// The name of a class or an interface.
    Class,
    /// The name of a field.
    Field,
    /// The name of a method.
    Method,
    /// The descriptor of a field.
    FieldDescriptor,
    /// The descriptor of a method.
    MethodDescriptor,
    /// The descriptor of an array.
    ArrayDescriptor,
    /// The name of a class, or the descriptor of an array.
    ClassOrArray,
}

/// Whether a text is allowed where this is wanted.
pub fn is_of_kind(kind: NameKind, text: &[u8]) -> bool
    ensures { result ≡ test_of kind text.now }
{
    match kind {
        NameKind::Class => is_class_name(text),
        NameKind::Field => is_unqualified_name(text),
        NameKind::Method => is_method_name(text),
        NameKind::FieldDescriptor => is_field_descriptor(text),
        NameKind::MethodDescriptor => is_method_descriptor(text),
        NameKind::ArrayDescriptor => is_array_descriptor(text),
        NameKind::ClassOrArray => is_class_name(text) || is_array_descriptor(text),
    }
}

/// The text that a word's units are.
#[tactic(auto, using(crate::proofs::BareTexts::bare_units))]
pub fn text_of(alloc: Global, bytes: &[u8]) -> Result<Text<'_>, AllocError>
    ensures { IfOk result (λ text. text_view text ≡ units_text (word_units 0 bytes.now)) }
{
    if is_bare(bytes) {
        Ok(Text::Lent(bytes))
    } else {
        let text = encoded(alloc, bytes)?;
        Ok(Text::Owned(text))
    }
}

/// Whether all bytes are units whose spelling is one byte, and none begins an escape.
fn is_bare(bytes: &[u8]) -> bool
    ensures { result ≡ list_all is_bare bytes.now }
{
    bytes.iter().all(|b| 1 <= *b && *b < 128 && *b != b'\\')
}

/// The units of a word in modified UTF-8.
fn encoded(alloc: Global, bytes: &[u8]) -> Result<Name, AllocError>
    ensures { IfOk result (λ name. name ≡ units_text (word_units 0 bytes.now)) }
{
    let mut text = Name::new(alloc);
    let mut rest = bytes;
    while let Some((unit, after)) = unit_at(rest) {
        push_unit(&mut text, unit)?;
        rest = after;
    }
    Ok(text)
}

/// Appends a unit's spelling.
pub(crate) fn push_unit(text: &mut Name, unit: u16) -> Result<(), AllocError>
    ensures { OnOk result (text.new ≡ text.old ++ unit_text unit) }
{
    if 1 <= unit && unit <= 127 {
        text.push(unit as u8)
    } else if unit <= 2047 {
        text.push((192 + unit / 64) as u8)?;
        text.push((128 + unit % 64) as u8)
    } else {
        text.push((224 + unit / 4096) as u8)?;
        text.push((128 + unit / 64 % 64) as u8)?;
        text.push((128 + unit % 64) as u8)
    }
}
