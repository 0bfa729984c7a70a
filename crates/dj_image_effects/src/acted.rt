ghost use Rattle.std.specs.Prelude.{◌≡◌};
ghost use Rattle.dj_image_effects.specs.Flows.{flow_acted, thrown_acted, way_acted};

use dj_effects::{Flow, Way};
use dj_member_effects::Thrown;
use dj_names::Raised;

/// How the run goes on after an instruction, or how it ends.
#[derive(Clone, Copy)]
pub enum Acted {
    Goes(Way),
    /// With the object of this number as an exception.
    Catch(u32),
    /// A reference is of a class that its use doesn't allow.
    Link,
    /// An object of this size doesn't fit beside the used bytes.
    HeapFull { used: u64, size: u64 },
    /// The instruction is a call, and nothing was done.
    Call,
    /// There is no such step, as the instruction lacks what it takes.
    Stuck,
}

/// What an instruction on values or static fields answers.
#[inline(always)]
pub(crate) fn way_acted(way: Option<Way>) -> Acted
    ensures { result ≡ way_acted way }
{
    match way {
        Some(way) => Acted::Goes(way),
        None => Acted::Stuck,
    }
}

/// What an instruction on the heap answers.
pub(crate) fn flow_acted(flow: Option<Flow>) -> Acted
    ensures { result ≡ flow_acted flow }
{
    match flow {
        Some(Flow::Goes(way)) => Acted::Goes(way),
        Some(Flow::Link) => Acted::Link,
        Some(Flow::HeapFull { used, size }) => Acted::HeapFull { used, size },
        None => Acted::Stuck,
    }
}

/// What a thrown object answers.
pub(crate) fn thrown_acted(thrown: Option<Thrown>) -> Acted
    ensures { result ≡ thrown_acted thrown }
{
    match thrown {
        Some(Thrown::Catch(r)) => Acted::Catch(r),
        Some(Thrown::Null) => Acted::Goes(Way::Raise(Raised::NullPointer)),
        Some(Thrown::Link) => Acted::Link,
        None => Acted::Stuck,
    }
}
