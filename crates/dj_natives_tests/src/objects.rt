ghost use Rattle.std.specs.Prelude.{◌≡◌, ◌<◌, false, length, IsTrue, IfSome};
ghost use Rattle.dj_member_effects.specs.Numbering.{AreNumbered};
ghost use Rattle.dj_natives_tests.specs.Few.{few_types};
ghost use Rattle.dj_natives_tests.specs.Arguments.{HasRoom};

use crate::arguments::units;
use crate::few::Few;
use crate::heaps::is_text;
use crate::known::are_known;
use crate::rows::Text;
use dj_effects::{Flow, Way, new_array, pop};
use dj_heap::Heap;
use dj_library_types::Classes;
use dj_member_effects::{
    FieldAccess, Literals, Statics, Thrown, check_cast, get_field, get_static, instance_of,
    new_object, push_text, put_field, put_static, throw_top,
};
use dj_names::{Element, Kind, Raised, Value};
use dj_stack::Frames;
use std::alloc::Global;

const FEW: Few = Few { boxed: false };

/// How the run goes on.
#[derive(Clone, Copy, PartialEq, Eq)]
pub enum Went {
    /// It doesn't, as the operands don't fit.
    Nowhere,
    Next,
    Raised(Raised),
    Link,
    Full(u64, u64),
    /// In a way in which none of these instructions goes on.
    Elsewhere,
}

fn way_of(flow: Option<Flow>) -> Went {
    match flow {
        None => Went::Nowhere,
        Some(Flow::Goes(Way::Next)) => Went::Next,
        Some(Flow::Goes(Way::Raise(raised))) => Went::Raised(raised),
        Some(Flow::Goes(_)) => Went::Elsewhere,
        Some(Flow::Link) => Went::Link,
        Some(Flow::HeapFull { used, size }) => Went::Full(used, size),
    }
}

// ---- frames

// One frame, without operands.
fn no_operands(alloc: Global) -> Option<Frames>
    ensures { IfSome result HasRoom }
{
    let mut frames = Frames::new(alloc);
    match frames.push(0, 0, 8) {
        Ok(()) => Some(frames),
        Err(_) => None,
    }
}

// One frame, with one operand.
fn one_operand(alloc: Global, value: Value) -> Option<Frames>
    ensures { IfSome result HasRoom }
{
    let mut frames = Frames::new(alloc);
    match frames.push(0, 0, 8) {
        Ok(()) => {
            frames.push_value(value);
            Some(frames)
        }
        Err(_) => None,
    }
}

// One frame, with two operands.
fn two_operands(alloc: Global, under: Value, value: Value) -> Option<Frames>
    ensures { IfSome result HasRoom }
{
    let mut frames = Frames::new(alloc);
    match frames.push(0, 0, 8) {
        Ok(()) => {
            frames.push_value(under);
            frames.push_value(value);
            Some(frames)
        }
        Err(_) => None,
    }
}

// ---- what is made

// The operand, the limit of the heap, how the run goes on, and the bytes that are used then.
type ArrayRow = (Value, u64, Went, u64);

const ARRAYS: [ArrayRow; 7] = [
    (Value::Int(3), 1000, Went::Next, 32),
    (Value::Int(3), 32, Went::Next, 32),
    (Value::Int(3), 31, Went::Full(0, 32), 0),
    (Value::Int(0), 16, Went::Next, 16),
    (
        Value::Int(-1),
        1000,
        Went::Raised(Raised::NegativeArraySize),
        0,
    ),
    (Value::Int(i32::MAX), 1000, Went::Full(0, 8_589_934_608), 0),
    (Value::Long(3), 1000, Went::Nowhere, 0),
];

// The limit of the heap, how many fields the object has, how the run goes on, and the bytes that are used then.
type ObjectRow = (u64, u32, Went, u64);

const OBJECTS: [ObjectRow; 4] = [
    (1000, 2, Went::Next, 32),
    (32, 2, Went::Next, 32),
    (31, 2, Went::Full(0, 32), 0),
    (16, 0, Went::Next, 16),
];

// Whether the first object is given where the run goes on.
fn is_given(frames: &mut Frames, went: Went) -> bool {
    went != Went::Next || pop(frames) == Some(Value::Ref(1))
}

#[tactic(auto, using(crate::proofs::Rooms::array_fits))]
fn makes_array(alloc: Global, row: &ArrayRow) -> Option<bool> {
    let mut frames = one_operand(alloc, row.0)?;
    let mut heap = Heap::new(alloc, row.1.min(1 << 31));
    let flow = new_array(&mut frames, &mut heap, 13, Element::Int).ok()?;
    let went = way_of(flow);
    Some(went == row.2 && heap.used() == row.3 && is_given(&mut frames, went))
}

#[tactic(auto, using(crate::proofs::Rooms::object_fits))]
fn makes_object(alloc: Global, row: &ObjectRow) -> Option<bool> {
    let mut frames = no_operands(alloc)?;
    let mut heap = Heap::new(alloc, row.0.min(1 << 31));
    let flow = new_object(&mut frames, &mut heap, 2, row.1).ok()?;
    let went = way_of(Some(flow));
    Some(went == row.2 && heap.used() == row.3 && is_given(&mut frames, went))
}

// ---- literals

// The object of a literal.
fn literal(
    alloc: Global,
    heap: &mut Heap,
    literals: &mut Literals,
    text: u32,
    spelled: Text,
) -> Option<Value>
    requires { text < literals.old.count }
    ensures { IfSome result (λ value. literals.new.count ≡ literals.old.count) }
{
    let units = units(alloc, spelled)?;
    let mut frames = no_operands(alloc)?;
    let string = FEW.string();
    match push_text(&mut frames, heap, literals, string, text, units.as_slice()) {
        Ok(Flow::Goes(Way::Next)) => pop(&mut frames),
        _ => None,
    }
}

// Whether a text has one object, and another text another one.
fn keeps_literals(alloc: Global) -> Option<bool> {
    let mut literals = Literals::new(alloc, 2).ok()?;
    let mut heap = Heap::new(alloc, 48);
    let first = literal(alloc, &mut heap, &mut literals, 1, b"ab")?;
    let second = literal(alloc, &mut heap, &mut literals, 0, b"c")?;
    let again = literal(alloc, &mut heap, &mut literals, 1, b"ab")?;
    Some(
        (first, second, again) == (Value::Ref(1), Value::Ref(2), Value::Ref(1))
            && heap.used() == 48
            && is_text(&heap, 1, &[97, 98])
            && is_text(&heap, 2, &[99]),
    )
}

// ---- classes of objects

// Whether each class of the heap has a number.
#[tactic(auto, using(crate::proofs::KnownObjects::numbered))]
fn are_numbered(heap: &Heap) -> bool
    ensures { IsTrue result → AreNumbered (length (few_types false)) heap.now.heap }
{
    are_known(&FEW, heap)
}

fn casts(alloc: Global, heap: &Heap, r: u32, class: u32) -> Option<Went>
    requires numbered { AreNumbered (length (few_types false)) heap.now.heap }
    requires known { class < length (few_types false) }
{
    let mut frames = one_operand(alloc, Value::Ref(r))?;
    let went = way_of(check_cast(&FEW, &mut frames, heap, class));
    if pop(&mut frames) == Some(Value::Ref(r)) {
        Some(went)
    } else {
        None
    }
}

fn reported(alloc: Global, heap: &Heap, r: u32, class: u32) -> Option<Value>
    requires numbered { AreNumbered (length (few_types false)) heap.now.heap }
    requires known { class < length (few_types false) }
{
    let mut frames = one_operand(alloc, Value::Ref(r))?;
    match way_of(instance_of(&FEW, &mut frames, heap, class)) {
        Went::Next => pop(&mut frames),
        _ => None,
    }
}

fn thrown(alloc: Global, heap: &Heap, r: u32, class: u32) -> Option<Thrown>
    requires numbered { AreNumbered (length (few_types false)) heap.now.heap }
    requires known { class < length (few_types false) }
{
    let mut frames = one_operand(alloc, Value::Ref(r))?;
    throw_top(&FEW, &mut frames, heap, class)
}

// The class of an object, if there is one; a class; and whether the object is of it.
type CastRow = (Option<&'static [u8]>, &'static [u8], bool);

const CASTS: [CastRow; 9] = [
    (Some(b"java/lang/Error"), b"java/lang/Error", true),
    (Some(b"java/lang/Error"), b"java/lang/Throwable", true),
    (Some(b"java/lang/Error"), b"java/lang/Object", true),
    (Some(b"java/lang/Error"), b"java/lang/Exception", false),
    (Some(b"java/lang/Throwable"), b"java/lang/Error", false),
    (Some(b"A"), b"java/lang/Throwable", false),
    (Some(b"A"), b"[B", false),
    (None, b"java/lang/Error", true),
    (None, b"[B", true),
];

// An object of the class, or null.
fn object_of(heap: &mut Heap, class: Option<&[u8]>) -> Option<u32> {
    match class {
        Some(class) => heap.instance(FEW.number(class)?, 2).ok(),
        None => Some(0),
    }
}

// Null is no instance, and what is thrown in its place is another exception.
fn is_thrown(thrown: Thrown, r: u32, is: bool) -> bool {
    match thrown {
        Thrown::Catch(caught) => caught == r && is && r != 0,
        Thrown::Null => r == 0,
        Thrown::Link => !is,
    }
}

fn is_cast(alloc: Global, row: &CastRow) -> Option<bool> {
    let mut heap = Heap::new(alloc, 1000);
    let r = object_of(&mut heap, row.0)?;
    let class = FEW.number(row.1)?;
    if !are_numbered(&heap) {
        return None;
    }
    let cast = if row.2 {
        Went::Next
    } else {
        Went::Raised(Raised::ClassCast)
    };
    let instance = i32::from(row.2 && r != 0);
    Some(
        casts(alloc, &heap, r, class)? == cast
            && reported(alloc, &heap, r, class)? == Value::Int(instance)
            && is_thrown(thrown(alloc, &heap, r, class)?, r, row.2),
    )
}

// ---- fields

// The class of an object, if there is one; the class that declares the field; the kind of its values; a value; and how the run goes on when it is put.
type FieldRow = (Option<&'static [u8]>, &'static [u8], Kind, Value, Went);

const FIELDS: [FieldRow; 7] = [
    (
        Some(b"java/lang/Error"),
        b"java/lang/Throwable",
        Kind::Int,
        Value::Int(-7),
        Went::Next,
    ),
    (
        Some(b"java/lang/Error"),
        b"java/lang/Throwable",
        Kind::Long,
        Value::Long(i64::MIN),
        Went::Next,
    ),
    (
        Some(b"java/lang/Error"),
        b"java/lang/Error",
        Kind::Ref,
        Value::Ref(1),
        Went::Next,
    ),
    (
        Some(b"java/lang/Error"),
        b"java/lang/Throwable",
        Kind::Int,
        Value::Long(7),
        Went::Nowhere,
    ),
    (
        Some(b"java/lang/Error"),
        b"java/lang/Exception",
        Kind::Int,
        Value::Int(7),
        Went::Link,
    ),
    (
        Some(b"java/lang/Throwable"),
        b"java/lang/Error",
        Kind::Int,
        Value::Int(7),
        Went::Link,
    ),
    (
        None,
        b"java/lang/Throwable",
        Kind::Int,
        Value::Int(7),
        Went::Raised(Raised::NullPointer),
    ),
];

fn put(alloc: Global, heap: &mut Heap, field: FieldAccess, r: u32, value: Value) -> Option<Went>
    requires { AreNumbered (length (few_types false)) heap.old.heap }
{
    let mut frames = two_operands(alloc, Value::Ref(r), value)?;
    Some(way_of(put_field(&FEW, &mut frames, heap, field)))
}

fn got(alloc: Global, heap: &Heap, field: FieldAccess, r: u32) -> Option<(Went, Option<Value>)>
    requires { AreNumbered (length (few_types false)) heap.now.heap }
{
    let mut frames = one_operand(alloc, Value::Ref(r))?;
    let went = way_of(get_field(&FEW, &mut frames, heap, field));
    Some((went, pop(&mut frames)))
}

// Whether the value that was put is read back, where one was put, and whether the run goes on as the row says.
fn is_got(went: Went, value: Option<Value>, row: &FieldRow) -> bool {
    match row.4 {
        Went::Next => went == Went::Next && value == Some(row.3),
        Went::Nowhere => went == Went::Next,
        other => went == other,
    }
}

fn is_put(alloc: Global, row: &FieldRow) -> Option<bool> {
    let mut heap = Heap::new(alloc, 1000);
    let r = object_of(&mut heap, row.0)?;
    let field = FieldAccess {
        declaring: FEW.number(row.1)?,
        place: 1,
        kind: row.2,
    };
    if !are_numbered(&heap) {
        return None;
    }
    let went = put(alloc, &mut heap, field, r, row.3)?;
    if !are_numbered(&heap) {
        return None;
    }
    let (then, value) = got(alloc, &heap, field, r)?;
    Some(went == row.4 && is_got(then, value, row))
}

// ---- static fields

fn put_at_one(alloc: Global, statics: &mut Statics, kind: Kind, value: Value) -> Option<()>
    requires { 1 < length statics.old }
    ensures { IfSome result (λ _. length statics.new ≡ length statics.old) }
{
    let mut frames = one_operand(alloc, value)?;
    match put_static(&mut frames, statics, 1, kind) {
        Some(_) => Some(()),
        None => None,
    }
}

fn got_at(alloc: Global, statics: &Statics, place: u32, kind: Kind) -> Option<Value>
    requires { place < length statics.now }
{
    let mut frames = no_operands(alloc)?;
    match get_static(&mut frames, statics, place, kind) {
        Some(Way::Next) => pop(&mut frames),
        _ => None,
    }
}

// Whether the value that was put is read back, and another field is still 0.
fn keeps(alloc: Global, kind: Kind, value: Value) -> Option<bool> {
    let mut statics = Statics::new(alloc, 3).ok()?;
    put_at_one(alloc, &mut statics, kind, value)?;
    Some(
        got_at(alloc, &statics, 1, kind)? == value
            && got_at(alloc, &statics, 2, Kind::Int)? == Value::Int(0),
    )
}

#[test]
fn objects_are_made(rt: HostRuntime) {
    for (number, row) in ARRAYS.iter().enumerate() {
        assert!(rt;
            makes_array(rt.alloc(), row) == Some(true),
            "array {number}"
        );
    }
    for (number, row) in OBJECTS.iter().enumerate() {
        assert!(rt;
            makes_object(rt.alloc(), row) == Some(true),
            "object {number}"
        );
    }
}

#[test]
fn literals_have_one_object_each(rt: HostRuntime) {
    assert!(rt; keeps_literals(rt.alloc()) == Some(true));
}

#[test]
fn objects_are_of_classes(rt: HostRuntime) {
    for (number, row) in CASTS.iter().enumerate() {
        assert!(rt; is_cast(rt.alloc(), row) == Some(true), "row {number}");
    }
}

#[test]
fn fields_keep_values(rt: HostRuntime) {
    for (number, row) in FIELDS.iter().enumerate() {
        assert!(rt; is_put(rt.alloc(), row) == Some(true), "row {number}");
    }
}

#[test]
fn static_fields_keep_values(rt: HostRuntime) {
    assert!(rt; keeps(rt.alloc(), Kind::Int, Value::Int(-1)) == Some(true));
    assert!(rt; keeps(rt.alloc(), Kind::Long, Value::Long(i64::MAX)) == Some(true));
    assert!(rt; keeps(rt.alloc(), Kind::Ref, Value::Ref(5)) == Some(true));
    assert!(rt; keeps(rt.alloc(), Kind::Int, Value::Ref(5)).is_none());
}
