ghost use Rattle.std.specs.Prelude.{◌≡◌, Some, slice_get};
ghost use Rattle.std.specs.Option.{option_map};
ghost use Rattle.dj_names.specs.declared.descriptor.Kind.TheVariants as kinds;
ghost use Rattle.dj_names.specs.trusted.Values.{value_kind};
ghost use Rattle.dj_model.specs.trusted.Natives as model;

use dj_names::Value;

/// The reference among the arguments at this place, and null where there is none.
pub fn reference(args: &[Value], at: usize) -> u32
    ensures { result ≡ model.reference at args.now }
{
    match args.get(at) {
        Some(Value::Ref(r)) => *r,
        _ => 0,
    }
}

/// The number at this place, and 0 where there is none.
pub fn number(args: &[Value], at: usize) -> i64
    ensures { result ≡ model.number at args.now }
{
    match args.get(at) {
        Some(Value::Int(z)) => i64::from(*z),
        Some(Value::Long(z)) => *z,
        _ => 0,
    }
}

/// The int at this place.
pub fn int(args: &[Value], at: usize) -> i32
    requires { option_map value_kind (slice_get args.now at) ≡ Some kinds.Int }
    ensures { result ≡ model.number at args.now }
{
    match args.get(at) {
        Some(Value::Int(z)) => *z,
        _ => unreachable!(),
    }
}

/// The boolean at this place, which counts by its lowest bit.
pub fn flag(args: &[Value], at: usize) -> bool
    ensures { result ≡ model.flag at args.now }
{
    number(args, at).rem_euclid(2) == 1
}

/// The char at this place, which counts by its low 16 bits.
pub fn unit(args: &[Value], at: usize) -> u16
    ensures { result ≡ model.unit at args.now }
{
    number(args, at).rem_euclid(1 << 16) as u16
}
