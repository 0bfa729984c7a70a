ghost use Rattle.std.specs.Prelude.{◌≡◌, ◌<◌, ◌↔◌, IsTrue, codes, length};
ghost use Rattle.dj_names.specs.declared.descriptor.Base.TheVariants as bases;
ghost use Rattle.dj_names.specs.trusted.Types.{base_array};
ghost use Rattle.dj_library_types.specs.Numbered.{type_at};
ghost use Rattle.dj_model.specs.trusted.Linking.{is_subtype};

use dj_library_types::Classes;

/// Whether a reference that is of no object counts as one of the class of this number: it counts as an array of booleans.
pub fn takes_absent<C: Classes>(classes: &C, class: u32) -> bool
    requires { class < length (C.types classes.now) }
    ensures { result ≡ is_subtype (C.program classes.now) (C.prefix classes.now) (base_array bases.Boolean) (type_at (C.types classes.now) class) }
{
    classes.are_plain();
    let name = classes.name_of(class);
    if is_of_booleans(name) {
        true
    } else if is_of_chars(name) {
        false
    } else {
        takes_chars(classes, class)
    }
}

// Whether the arrays of chars are a subtype of the class.
#[tactic(auto, using(crate::proofs::BooleanArrays::chars_within, crate::proofs::BooleanArrays::chars_at))]
fn takes_chars<C: Classes>(classes: &C, class: u32) -> bool
    requires { class < length (C.types classes.now) }
    ensures { result ≡ is_subtype (C.program classes.now) (C.prefix classes.now) (base_array bases.Char) (type_at (C.types classes.now) class) }
{
    classes.sub_type(classes.chars(), class)
}

// Whether it is the descriptor of arrays of booleans.
fn is_of_booleans(name: &[u8]) -> bool
    ensures { IsTrue result ↔ (name.now ≡ codes "[Z") }
{
    name == b"[Z".as_slice()
}

// Whether it is that of arrays of chars.
fn is_of_chars(name: &[u8]) -> bool
    ensures { IsTrue result ↔ (name.now ≡ codes "[C") }
{
    name == b"[C".as_slice()
}
