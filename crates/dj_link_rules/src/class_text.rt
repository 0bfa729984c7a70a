ghost use Rattle.std.specs.Prelude.{◌≡◌, ◌≤◌, [], length};
ghost use Rattle.dj_names.specs.declared.descriptor.Of.{Of};
ghost use Rattle.dj_names.specs.trusted.Descriptors.{of_text};
ghost use Rattle.dj_pool.specs.trusted.Pool.{IsClassText};
ghost use Rattle.dj_model.specs.trusted.Types.{object_name};
ghost use Rattle.dj_model.specs.trusted.Linking.{class_or_object};
ghost use Rattle.dj_declarations.specs.trusted.Files.{type_in};
ghost use Rattle.dj_link_rules.specs.trusted.Named.{class_of_type};
ghost use Rattle.dj_link_rules.specs.Judged.{is_of_library};
ghost use Rattle.dj_link_rules.specs.Constants.{brackets};

/// The class that the text of a class constant names.
#[derive(Clone, Copy)]
pub struct ClassText<'a> {
    /// The dimensions; 0 where it is no array.
    pub dims: u8,
    /// The name of the class that is looked up: an array's is that of its elements, and Object where these are of a base type.
    pub class: &'a [u8],
}

/// The name of Object.
pub fn object_name() -> &'static [u8]
    ensures { result.now ≡ object_name [] }
{
    b"java/lang/Object"
}

// How many brackets the text begins with.
fn brackets(text: &[u8]) -> u8
    requires { brackets text.now ≤ 255 }
    ensures count { result ≡ brackets text.now }
    ensures within { result ≤ length text.now }
{
    let mut dims = 0;
    for byte in text {
        if *byte != b'[' {
            return dims;
        }
        dims += 1;
    }
    dims
}

// The class of an element, whose descriptor comes after the brackets.
fn element_class(text: &[u8]) -> &[u8]
    ensures { (of : Of) → text.now ≡ of_text of → result.now ≡ class_or_object [] of }
{
    match text {
        [b'L', name @ .., b';'] => name,
        _ => object_name(),
    }
}

/// The class that the text of a class constant names. Only the first byte of a class's name is looked at.
pub fn class_text(text: &[u8]) -> ClassText<'_>
    requires { IsClassText text.now }
    ensures dims { result.dims ≡ (type_in text.now).dims }
    ensures class { result.class.now ≡ class_of_type (type_in text.now) }
{
    let dims = brackets(text);
    if dims == 0 {
        return ClassText { dims, class: text };
    }
    ClassText {
        dims,
        class: element_class(&text[usize::from(dims)..]),
    }
}

/// Whether the name is in the library's packages.
pub fn is_of_library(name: &[u8]) -> bool
    ensures { result ≡ is_of_library name.now }
{
    name.starts_with(b"java/") || name.starts_with(b"javax/")
}
