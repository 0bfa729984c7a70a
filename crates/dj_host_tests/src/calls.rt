ghost use Rattle.std.specs.Prelude.{IfSome};
ghost use Rattle.dj_natives.specs.Known.{AreKnown};
ghost use Rattle.dj_host_tests.specs.Three.{three_types};

use crate::counted::Counted;
use crate::texts::is_text;
use crate::three::{INTS, OWN, Three};
use dj_heap::Heap;
use dj_host::{call_host, is_hosted};
use dj_names::NativeId::{
    CurrentTimeMillis, HostHashCode, HostIdentityHashCode, HostToString, IdentityHashCode, NanoTime,
};
use dj_names::{Element, NativeId, Value};
use dj_natives::NativeAnswer;
use std::alloc::Global;

/// What a method is called on.
#[derive(Clone, Copy)]
enum Thing {
    Null,
    /// An instance without fields.
    Own,
    /// An array of one int.
    Ints,
}

/// What a call answers.
#[derive(Clone, Copy)]
enum Reported {
    Gives(i32),
    /// The text is the second object.
    GivesText(&'static [u8]),
    /// This many bytes are used, and this many more are wanted.
    Full(u64, u64),
}

/// A method, what it is called on, the limit of the heap, the host's word, the answer, and how many answers the host gave.
type Row = (NativeId, Thing, u64, i32, Reported, u32);

const ROWS: [Row; 10] = [
    (
        HostIdentityHashCode,
        Thing::Null,
        999,
        7,
        Reported::Gives(0),
        0,
    ),
    (
        HostIdentityHashCode,
        Thing::Own,
        999,
        1,
        Reported::Gives(1),
        1,
    ),
    (
        HostIdentityHashCode,
        Thing::Ints,
        999,
        -5,
        Reported::Gives(-5),
        1,
    ),
    (HostHashCode, Thing::Own, 999, 9, Reported::Gives(9), 1),
    (
        HostToString,
        Thing::Own,
        999,
        -1,
        Reported::GivesText(b"p.q.R@ffffffff"),
        1,
    ),
    (
        HostToString,
        Thing::Own,
        999,
        10,
        Reported::GivesText(b"p.q.R@a"),
        1,
    ),
    (
        HostToString,
        Thing::Ints,
        999,
        0,
        Reported::GivesText(b"[I@0"),
        1,
    ),
    (
        HostToString,
        Thing::Ints,
        999,
        i32::MIN,
        Reported::GivesText(b"[I@80000000"),
        1,
    ),
    (
        HostToString,
        Thing::Own,
        64,
        -1,
        Reported::GivesText(b"p.q.R@ffffffff"),
        1,
    ),
    (HostToString, Thing::Own, 63, -1, Reported::Full(16, 48), 1),
];

// The object, or 0 for null.
fn number_of(heap: &mut Heap, thing: Thing) -> Option<u32>
    requires { AreKnown three_types heap.old }
    ensures { IfSome result (λ r. AreKnown three_types heap.new) }
{
    match thing {
        Thing::Null => Some(0),
        Thing::Own => own_object(heap),
        Thing::Ints => one_int(heap),
    }
}

fn own_object(heap: &mut Heap) -> Option<u32>
    requires { AreKnown three_types heap.old }
    ensures { IfSome result (λ r. AreKnown three_types heap.new) }
{
    match heap.instance(OWN, 0) {
        Ok(r) => Some(r),
        Err(_) => None,
    }
}

fn one_int(heap: &mut Heap) -> Option<u32>
    requires { AreKnown three_types heap.old }
    ensures { IfSome result (λ r. AreKnown three_types heap.new) }
{
    match heap.array(INTS, Element::Int, 1) {
        Ok(r) => Some(r),
        Err(_) => None,
    }
}

// Calls the method, where the host answers it.
fn called(
    alloc: Global,
    heap: &mut Heap,
    host: &mut Counted,
    id: NativeId,
    args: &[Value],
) -> Option<NativeAnswer>
    requires { AreKnown three_types heap.old }
    ensures { AreKnown three_types heap.new }
{
    if is_hosted(id) {
        Some(call_host(alloc, &Three, host, heap, id, args))
    } else {
        None
    }
}

fn is_reported(heap: &Heap, answer: NativeAnswer, reported: &Reported) -> bool {
    match (answer, reported) {
        (NativeAnswer::Gives(Value::Int(z)), Reported::Gives(int)) => z == *int,
        (NativeAnswer::Gives(Value::Ref(r)), Reported::GivesText(text)) => {
            r == 2 && is_text(heap, r, text)
        }
        (NativeAnswer::Full { used, size }, Reported::Full(bytes, wanted)) => {
            used == *bytes && size == *wanted
        }
        _ => false,
    }
}

// Whether the call does what the row says; none where it can't be made.
fn does(alloc: Global, row: &Row) -> Option<bool> {
    let mut heap = Heap::new(alloc, row.2.min(1 << 31));
    let mut host = Counted::new(alloc, row.3, 0);
    let r = number_of(&mut heap, row.1)?;
    let answer = called(alloc, &mut heap, &mut host, row.0, &[Value::Ref(r)])?;
    Some(is_reported(&heap, answer, &row.4) && host.count() == row.5)
}

// What two calls of a method without arguments answer, and how many answers the host gave.
fn times(alloc: Global, id: NativeId, clock: i64) -> Option<(NativeAnswer, NativeAnswer, u32)> {
    let mut heap = Heap::new(alloc, 0);
    let mut host = Counted::new(alloc, 0, clock);
    let first = called(alloc, &mut heap, &mut host, id, &[])?;
    let second = called(alloc, &mut heap, &mut host, id, &[])?;
    Some((first, second, host.count()))
}

fn given(nanos: i64) -> NativeAnswer {
    NativeAnswer::Gives(Value::Long(nanos))
}

#[test]
fn objects_have_words(rt: HostRuntime) {
    assert!(rt; ROWS.iter().all(|row| does(rt.alloc(), row) == Some(true)));
}

#[test]
fn clocks_go_on(rt: HostRuntime) {
    assert!(rt; times(rt.alloc(), NanoTime, 5) == Some((given(5), given(6), 2)));
    assert!(rt;
        times(rt.alloc(), CurrentTimeMillis, i64::MAX)
            == Some((given(i64::MAX), given(i64::MIN), 2))
    );
    assert!(rt; times(rt.alloc(), IdentityHashCode, 5).is_none());
}
