ghost use Rattle.std.specs.Prelude.{◌≡◌, ◌≤◌, sum_by};
ghost use Rattle.dj_names.specs.trusted.Descriptors.{slots_of, type_kind, type_slots};

use crate::descriptor::{Base, Desc, Kind, Of, Ty};

/// The slots of the parameters, without that of `this` (JVMS 4.3.3).
pub fn slots(desc: &Desc) -> u16
    requires { slots_of desc.now ≤ 65535 }
    ensures { result ≡ slots_of desc.now }
{
    match desc {
        Desc::Field(_) => 0,
        Desc::Method { params, .. } => slots_in(params.as_slice()),
    }
}

/// The kind of a value of the type; none for a float or a double.
pub fn kind_of(ty: &Ty) -> Option<Kind>
    ensures { result ≡ type_kind ty.now }
{
    if ty.dims != 0 {
        return Some(Kind::Ref);
    }
    match &ty.of {
        Of::Base(base) => base_kind(*base),
        Of::Class(_) => Some(Kind::Ref),
    }
}

fn slots_in(params: &[Ty]) -> u16
    requires { sum_by type_slots params.now ≤ 65535 }
    ensures { result ≡ sum_by type_slots params.now }
{
    let mut slots: u16 = 0;
    for param in params {
        slots += type_slots_of(param);
    }
    slots
}

/// The slots of a type.
pub fn type_slots_of(ty: &Ty) -> u16
    ensures { result ≡ type_slots ty.now }
{
    if ty.dims != 0 {
        return 1;
    }
    match &ty.of {
        Of::Base(Base::Long) => 2,
        Of::Base(Base::Double) => 2,
        _ => 1,
    }
}

fn base_kind(base: Base) -> Option<Kind>
    ensures { result ≡ type_kind (record { dims = 0; of = Of.Base base }) }
{
    match base {
        Base::Long => Some(Kind::Long),
        Base::Float | Base::Double => None,
        _ => Some(Kind::Int),
    }
}
