use crate::calls::are_done;
use crate::few::Few;
use crate::rows::After::Any;
use crate::rows::Argument::{Int, Null, Numbers, Object, References};
use crate::rows::LimitedCall;
use crate::rows::WantedAnswer::{GivesInt, GivesText, Nothing, Stops};
use dj_names::Element;
use dj_names::NativeId::{
    CheckCatch, ObjectHashCode, ObjectToString, RecordAllocation, RecordArray, RecordInvocation,
    RecordJump, RecordThrow,
};

// Methods under a prefix, and those of the accounter, where little is left.
const BOXED_LIMITED: [LimitedCall; 17] = [
    (
        ObjectToString,
        (Some(1000), 1_000_000),
        &[Object(b"sandbox/p/B", 0)],
        GivesText(2, b"p.B@1"),
        (16, 48),
        32,
        Any,
    ),
    (
        ObjectToString,
        (Some(1000), 1_000_000),
        &[References(b"[Lsandbox/p/B;", &[Null])],
        GivesText(2, b"[Lp.B;@1"),
        (24, 56),
        32,
        Any,
    ),
    (
        ObjectToString,
        (Some(1000), 1_000_000),
        &[Numbers(b"[I", Element::Int, &[1])],
        GivesText(2, b"[I@1"),
        (24, 48),
        24,
        Any,
    ),
    (
        ObjectToString,
        (Some(1000), 1_000_000),
        &[Object(b"djvm/Stop", 0)],
        GivesText(2, b"djvm.Stop@1"),
        (16, 56),
        40,
        Any,
    ),
    (
        ObjectHashCode,
        (Some(1000), 1_000_000),
        &[Object(b"sandbox/p/B", 0)],
        GivesInt(1),
        (16, 16),
        0,
        Any,
    ),
    (
        RecordJump,
        (Some(5), 1_000_000),
        &[],
        Nothing,
        (0, 0),
        0,
        Any,
    ),
    (
        RecordInvocation,
        (Some(5), 1_000_000),
        &[],
        Nothing,
        (0, 0),
        0,
        Any,
    ),
    (
        RecordThrow,
        (Some(5), 1_000_000),
        &[],
        Nothing,
        (0, 0),
        0,
        Any,
    ),
    (
        RecordAllocation,
        (Some(16), 1_000_000),
        &[Int(16)],
        Nothing,
        (0, 0),
        16,
        Any,
    ),
    (
        RecordAllocation,
        (Some(16), 1_000_000),
        &[Int(17)],
        Stops,
        (0, 0),
        17,
        Any,
    ),
    (
        RecordAllocation,
        (Some(0), 1_000_000),
        &[Int(-5)],
        Nothing,
        (0, 0),
        0,
        Any,
    ),
    (
        RecordArray,
        (Some(100), 1_000_000),
        &[Int(9), Int(2)],
        Nothing,
        (0, 0),
        40,
        Any,
    ),
    (
        RecordArray,
        (Some(39), 1_000_000),
        &[Int(9), Int(2)],
        Stops,
        (0, 0),
        40,
        Any,
    ),
    (
        RecordArray,
        (Some(0), 1_000_000),
        &[Int(-1), Int(8)],
        Nothing,
        (0, 0),
        0,
        Any,
    ),
    (
        CheckCatch,
        (Some(5), 1_000_000),
        &[Object(b"sandbox/p/B", 0)],
        Nothing,
        (16, 16),
        0,
        Any,
    ),
    (
        CheckCatch,
        (Some(5), 1_000_000),
        &[Object(b"djvm/Stop", 0)],
        Stops,
        (16, 16),
        0,
        Any,
    ),
    (
        CheckCatch,
        (Some(5), 1_000_000),
        &[Null],
        Nothing,
        (0, 0),
        0,
        Any,
    ),
];

#[test]
fn under_a_prefix(rt: HostRuntime) {
    let few = Few { boxed: true };
    assert!(rt; are_done(rt.alloc(), &few, &BOXED_LIMITED));
}
