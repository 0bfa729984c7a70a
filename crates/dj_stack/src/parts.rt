ghost use Rattle.std.specs.Prelude.{◌≡◌, ◌+◌, ◌*◌, ◌/◌, ◌%◌, Some, None};
ghost use Rattle.dj_names.specs.declared.run.Value.TheVariants as values;
ghost use Rattle.dj_stack.specs.Parts.{local_of, value_of};

use dj_names::Value;

/// What a value is, or that there is none.
#[derive(Clone, Copy, Debug)]
pub(crate) enum Kind {
    Empty,
    Int,
    Long,
    Ref,
}

/// A value, or none, in parts: what it is, and its low and its high 32 bits.
#[derive(Clone, Copy, Debug)]
pub(crate) struct Parts {
    pub(crate) kind: Kind,
    pub(crate) low: u32,
    pub(crate) high: u32,
}

impl Parts {
    /// The parts of a value.
    pub(crate) fn of_value(value: Value) -> Parts
        ensures value { value_of result ≡ value }
        ensures local { local_of result ≡ Some value }
    {
        match value {
            Value::Int(n) => of_int(n),
            Value::Long(n) => of_long(n),
            Value::Ref(r) => Parts {
                kind: Kind::Ref,
                low: r,
                high: 0,
            },
        }
    }

    /// The parts of a local variable.
    pub(crate) fn of_local(local: Option<Value>) -> Parts
        ensures { local_of result ≡ local }
    {
        match local {
            Some(value) => Parts::of_value(value),
            None => Parts {
                kind: Kind::Empty,
                low: 0,
                high: 0,
            },
        }
    }

    /// The value.
    pub(crate) fn value(self) -> Value
        ensures { result ≡ value_of self }
    {
        match self.kind {
            Kind::Int => Value::Int(self.low.cast_signed()),
            Kind::Long => Value::Long(joined(self.high, self.low).cast_signed()),
            Kind::Empty | Kind::Ref => Value::Ref(self.low),
        }
    }

    /// The value of a local variable, if it has one.
    pub(crate) fn local(self) -> Option<Value>
        ensures { result ≡ local_of self }
    {
        match self.kind {
            Kind::Empty => None,
            _ => Some(self.value()),
        }
    }
}

#[tactic(auto, using(crate::proofs::Halves::int_again))]
fn of_int(n: i32) -> Parts
    ensures value { value_of result ≡ values.Int n }
    ensures local { local_of result ≡ Some (values.Int n) }
{
    Parts {
        kind: Kind::Int,
        low: n.cast_unsigned(),
        high: 0,
    }
}

#[tactic(auto, using(crate::proofs::Halves::long_again))]
fn of_long(n: i64) -> Parts
    ensures value { value_of result ≡ values.Long n }
    ensures local { local_of result ≡ Some (values.Long n) }
{
    let bits = n.cast_unsigned();
    Parts {
        kind: Kind::Long,
        low: low_half(bits),
        high: high_half(bits),
    }
}

fn low_half(bits: u64) -> u32
    ensures { result ≡ bits % 4294967296 }
{
    (bits % 4_294_967_296) as u32
}

#[tactic(auto, using(crate::proofs::Halves::high_small))]
fn high_half(bits: u64) -> u32
    ensures { result ≡ bits / 4294967296 }
{
    (bits / 4_294_967_296) as u32
}

fn joined(high: u32, low: u32) -> u64
    ensures { result ≡ high * 4294967296 + low }
{
    u64::from(high) * 4_294_967_296 + u64::from(low)
}
