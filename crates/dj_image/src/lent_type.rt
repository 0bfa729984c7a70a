ghost use Rattle.std.specs.Prelude.{◌≡◌, ◌≤◌, ◌∷◌, [], length};
ghost use Rattle.dj_names.specs.declared.descriptor.Base.{Base};
ghost use Rattle.dj_names.specs.declared.descriptor.Of.TheVariants.{Class};
ghost use Rattle.dj_names.specs.trusted.Types.{Name};
ghost use Rattle.dj_names.specs.declared.descriptor.Of.{Of};
ghost use Rattle.dj_names.specs.trusted.Descriptors.{base_letter, of_text};
ghost use Rattle.dj_pool.specs.trusted.Pool.{IsClassText};
ghost use Rattle.dj_declarations.specs.trusted.Files.{type_in};
ghost use Rattle.dj_image.specs.ArrayRows.{brackets, of_lent, type_lent};

use dj_names::Base;

/// What a type or an array's element is, borrowed.
#[derive(Clone, Copy)]
pub(crate) enum LentOf<'a> {
    Base(Base),
    Class(&'a [u8]),
}

/// A type, borrowed; an array may have one dimension more than a descriptor spells.
#[derive(Clone, Copy)]
pub(crate) struct LentType<'a> {
    pub(crate) dims: u16,
    pub(crate) of: LentOf<'a>,
}

// The brackets that the text begins with.
fn brackets(text: &[u8]) -> u16
    requires { brackets text.now ≤ 255 }
    ensures count { result ≡ brackets text.now }
    ensures within { result ≤ length text.now }
{
    let mut dims = 0;
    for byte in text {
        if *byte != b'[' {
            return dims;
        }
        dims += 1;
    }
    dims
}

fn base_of_letter(letter: u8) -> Base
    ensures { (base : Base) → letter ∷ [] ≡ base_letter base → result ≡ base }
{
    match letter {
        b'Z' => Base::Boolean,
        b'B' => Base::Byte,
        b'C' => Base::Char,
        b'S' => Base::Short,
        b'I' => Base::Int,
        b'J' => Base::Long,
        b'F' => Base::Float,
        _ => Base::Double,
    }
}

// The name of the class whose descriptor this is.
fn class_name(text: &[u8]) -> &[u8]
    ensures { (name : Name) → text.now ≡ of_text (Class name) → result.now ≡ name }
{
    match text {
        [b'L', name @ .., b';'] => name,
        _ => text,
    }
}

// The element whose descriptor this is, where it is no array.
fn element(text: &[u8]) -> LentOf<'_>
    ensures { (of : Of) → text.now ≡ of_text of → of_lent result ≡ of }
{
    if text.len() == 1 {
        LentOf::Base(base_of_letter(text[0]))
    } else {
        LentOf::Class(class_name(text))
    }
}

/// The type that the text of a class constant names.
pub(crate) fn type_in(text: &[u8]) -> LentType<'_>
    requires { IsClassText text.now }
    ensures { type_lent result ≡ type_in text.now }
{
    let dims = brackets(text);
    if dims == 0 {
        return LentType {
            dims,
            of: LentOf::Class(text),
        };
    }
    LentType {
        dims,
        of: element(&text[usize::from(dims)..]),
    }
}
