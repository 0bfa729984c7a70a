ghost use Rattle.std.specs.Prelude.{◌≡◌};
ghost use Rattle.dj_names.specs.declared.descriptor.Desc.{Desc};
ghost use Rattle.dj_names.specs.trusted.Descriptors.{Describes};
ghost use Rattle.dj_names.specs.trusted.Types.{field_kind};
ghost use Rattle.dj_image_effects.specs.Kinds.{kind_by};

use dj_names::Kind;

/// The kind of the values of a field with this descriptor; none of a float or a double.
#[tactic(auto, using(crate::proofs::Letters::kind_reported))]
pub fn kind_of(desc: &[u8]) -> Option<Kind>
    ensures { (d : Desc) → Describes desc.now d → result ≡ field_kind d }
{
    first_kind(desc)
}

// By the first letter.
fn first_kind(desc: &[u8]) -> Option<Kind>
    ensures { result ≡ kind_by desc.now }
{
    match desc.first() {
        Some(b'J') => Some(Kind::Long),
        Some(b'L' | b'[') => Some(Kind::Ref),
        Some(b'F' | b'D' | b'(') => None,
        _ => Some(Kind::Int),
    }
}
