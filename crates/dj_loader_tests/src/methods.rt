ghost use Rattle.dj_loader_tests.specs.Members.{HasMethod};

use crate::answers::{
    reported_body, reported_class, reported_method, reported_number, reported_operand,
};
use crate::members::{
    Member, caught_class, class_of, named_class, operand_of, own_method, selected_method,
};
use crate::set::{image, numbered_image};
use dj_image::{Image, MethodId};
use std::alloc::Global;

// What is asked of a method.
#[derive(Debug)]
enum OfMethod {
    Body,
    Flags,
    // The method that is taken for a receiver of the class.
    SelectedFor(&'static str),
    // Of an instruction.
    Operand(u32),
    Named(u32),
    // Of a row.
    Caught(u32),
}

// A method, what is asked of it, and the answer.
type MethodRow = (Member, OfMethod, &'static str);

const ALL: Member = ("x/X", "all", "(Ljava/lang/Object;)V");

const SELECTED: [MethodRow; 27] = [
    (("A", "m", "()V"), OfMethod::SelectedFor("A"), "A m ()V"),
    (("A", "m", "()V"), OfMethod::SelectedFor("p/B"), "p/B m ()V"),
    (("A", "m", "()V"), OfMethod::SelectedFor("C"), "p/B m ()V"),
    (
        ("A", "priv", "()V"),
        OfMethod::SelectedFor("C"),
        "A priv ()V",
    ),
    (
        ("A", "over", "(I)I"),
        OfMethod::SelectedFor("p/B"),
        "A over (I)I",
    ),
    (
        ("A", "over", "(I)I"),
        OfMethod::SelectedFor("C"),
        "C over (I)I",
    ),
    (
        ("A", "abs", "()V"),
        OfMethod::SelectedFor("p/B"),
        "p/B abs ()V",
    ),
    (
        ("A", "abs", "()V"),
        OfMethod::SelectedFor("C"),
        "p/B abs ()V",
    ),
    (
        ("I", "abs", "()V"),
        OfMethod::SelectedFor("C"),
        "p/B abs ()V",
    ),
    (("I", "q", "()V"), OfMethod::SelectedFor("C"), "C q ()V"),
    (
        ("p/B", "over", "(I)I"),
        OfMethod::SelectedFor("C"),
        "p/B over (I)I",
    ),
    (
        ("java/lang/Object", "hashCode", "()I"),
        OfMethod::SelectedFor("C"),
        "java/lang/Object hashCode ()I",
    ),
    (
        ("I", "hashCode", "()I"),
        OfMethod::SelectedFor("C"),
        "java/lang/Object hashCode ()I",
    ),
    (
        ("java/lang/Object", "hashCode", "()I"),
        OfMethod::SelectedFor("java/lang/String"),
        "java/lang/String hashCode ()I",
    ),
    (
        ("java/lang/Object", "toString", "()Ljava/lang/String;"),
        OfMethod::SelectedFor("[I"),
        "java/lang/Object toString ()Ljava/lang/String;",
    ),
    (
        ("java/lang/CharSequence", "length", "()I"),
        OfMethod::SelectedFor("java/lang/StringBuilder"),
        "java/lang/StringBuilder length ()I",
    ),
    (
        ("java/lang/Comparable", "compareTo", "(Ljava/lang/Object;)I"),
        OfMethod::SelectedFor("java/lang/String"),
        "java/lang/String compareTo (Ljava/lang/Object;)I",
    ),
    (
        ("java/lang/Object", "equals", "(Ljava/lang/Object;)Z"),
        OfMethod::SelectedFor("[LC;"),
        "java/lang/Object equals (Ljava/lang/Object;)Z",
    ),
    (
        ("java/lang/Throwable", "getMessage", "()Ljava/lang/String;"),
        OfMethod::SelectedFor("x/X"),
        "java/lang/Throwable getMessage ()Ljava/lang/String;",
    ),
    (("A", "abs", "()V"), OfMethod::SelectedFor("A"), "None"),
    (("I", "q", "()V"), OfMethod::SelectedFor("p/B"), "None"),
    (("J", "r", "()V"), OfMethod::SelectedFor("C"), "None"),
    (("K", "only", "()V"), OfMethod::SelectedFor("C"), "None"),
    (("I", "abs", "()V"), OfMethod::SelectedFor("A"), "None"),
    (("I", "q", "()V"), OfMethod::SelectedFor("A"), "None"),
    (
        ("java/lang/Runnable", "run", "()V"),
        OfMethod::SelectedFor("C"),
        "None",
    ),
    (("J", "r", "()V"), OfMethod::SelectedFor("p/B"), "None"),
];

const BODIES: [MethodRow; 33] = [
    (
        ("A", "m", "()V"),
        OfMethod::Body,
        "Code stack 1 locals 1 instructions 1 ranges 0 frames 0",
    ),
    (("A", "abs", "()V"), OfMethod::Body, "Abstract"),
    (("I", "q", "()V"), OfMethod::Body, "Abstract"),
    (
        ("java/lang/Object", "hashCode", "()I"),
        OfMethod::Body,
        "Native ObjectHashCode",
    ),
    (("A", "priv", "()V"), OfMethod::Flags, "2"),
    (("A", "st", "()V"), OfMethod::Flags, "9"),
    (("I", "q", "()V"), OfMethod::Flags, "1025"),
    (
        ("java/lang/Runnable", "run", "()V"),
        OfMethod::Body,
        "Abstract",
    ),
    (
        ("x/X", "all", "(Ljava/lang/Object;)V"),
        OfMethod::Body,
        "Code stack 9 locals 3 instructions 43 ranges 5 frames 1",
    ),
    (
        ("x/X", "none", "()V"),
        OfMethod::Body,
        "Code stack 0 locals 1 instructions 1 ranges 0 frames 0",
    ),
    (ALL, OfMethod::Operand(0), "Int -3"),
    (ALL, OfMethod::Operand(1), "Nothing"),
    (ALL, OfMethod::Operand(2), "Text 006120ac"),
    (ALL, OfMethod::Operand(4), "Long 9"),
    (ALL, OfMethod::Operand(8), "Field J k I"),
    (ALL, OfMethod::Operand(10), "Field p/B c Ljava/lang/String;"),
    (ALL, OfMethod::Operand(12), "Class C"),
    (ALL, OfMethod::Operand(13), "Nothing"),
    (ALL, OfMethod::Operand(14), "Method C over (I)I"),
    (ALL, OfMethod::Operand(16), "Method A abs ()V"),
    (ALL, OfMethod::Operand(17), "Method I q ()V"),
    (ALL, OfMethod::Operand(18), "Unresolved"),
    (ALL, OfMethod::Operand(19), "Unresolved"),
    (
        ALL,
        OfMethod::Operand(20),
        "Method java/lang/Object <init> ()V",
    ),
    (
        ALL,
        OfMethod::Operand(21),
        "Method java/lang/Object hashCode ()I",
    ),
    (ALL, OfMethod::Operand(23), "Class [I"),
    (ALL, OfMethod::Operand(26), "Class [LC;"),
    (ALL, OfMethod::Operand(29), "Class [[[I"),
    (ALL, OfMethod::Operand(32), "Class [LI;"),
    (ALL, OfMethod::Operand(35), "Unresolved"),
    (ALL, OfMethod::Operand(37), "Field x/X own I"),
    (ALL, OfMethod::Operand(39), "Nothing"),
    (ALL, OfMethod::Operand(42), "Nothing"),
];

const NAMED: [MethodRow; 24] = [
    (ALL, OfMethod::Named(0), "None"),
    (ALL, OfMethod::Named(2), "None"),
    (ALL, OfMethod::Named(8), "C"),
    (ALL, OfMethod::Named(10), "p/B"),
    (ALL, OfMethod::Named(12), "C"),
    (ALL, OfMethod::Named(14), "C"),
    (ALL, OfMethod::Named(16), "A"),
    (ALL, OfMethod::Named(17), "J"),
    (ALL, OfMethod::Named(18), "None"),
    (ALL, OfMethod::Named(19), "A"),
    (ALL, OfMethod::Named(20), "java/lang/Object"),
    (ALL, OfMethod::Named(21), "[LC;"),
    (ALL, OfMethod::Named(23), "None"),
    (ALL, OfMethod::Named(26), "C"),
    (ALL, OfMethod::Named(29), "[[I"),
    (ALL, OfMethod::Named(32), "[LI;"),
    (ALL, OfMethod::Named(35), "None"),
    (ALL, OfMethod::Named(37), "x/X"),
    (ALL, OfMethod::Named(39), "None"),
    (ALL, OfMethod::Caught(0), "None"),
    (ALL, OfMethod::Caught(1), "x/X"),
    (ALL, OfMethod::Caught(2), "None"),
    (ALL, OfMethod::Caught(3), "None"),
    (ALL, OfMethod::Caught(4), "java/lang/Error"),
];

const TABLES: [&[MethodRow]; 3] = [&SELECTED, &BODIES, &NAMED];

// What constants name by long texts.
const LOW: Member = ("l/Low", "all", "(Ljava/lang/Object;)V");

const NUMBERED: [MethodRow; 6] = [
    (
        LOW,
        OfMethod::Operand(3),
        "Method l/Long aLongNameoooooooooooooooooooooooooooooooooooooooooo\
        ooooooooooooooooooooooooooooooooooooooooooooooooooo\
        ooooooooooooooooooooooooooooooooooooooooooooooooooo\
        ooooooooooooooooooooooooooooooooooooooooooooooooooo ()V",
    ),
    (
        LOW,
        OfMethod::Operand(4),
        "Method l/Long aLongNameoooooooooooooooooooooooooooooooooooooooooo\
        ooooooooooooooooooooooooooooooooooooooooooooooooooo\
        ooooooooooooooooooooooooooooooooooooooooooooooooooo\
        ooooooooooooooooooooooooooooooooooooooooooooooooooo ()V",
    ),
    (LOW, OfMethod::Operand(5), "Unresolved"),
    (LOW, OfMethod::Operand(6), "Unresolved"),
    (LOW, OfMethod::Operand(7), "Unresolved"),
    (
        LOW,
        OfMethod::Operand(8),
        "Field l/Long aLongNameoooooooooooooooooooooooooooooooooooooooooo\
        ooooooooooooooooooooooooooooooooooooooooooooooooooo\
        ooooooooooooooooooooooooooooooooooooooooooooooooooo\
        ooooooooooooooooooooooooooooooooooooooooooooooooooo I",
    ),
];

// With long texts members are looked up by numbers, and the others are found as before.
const NUMBERED_TABLES: [&[MethodRow]; 4] = [&SELECTED, &BODIES, &NAMED, &NUMBERED];

fn reported_selected(
    alloc: Global,
    image: &Image,
    method: MethodId,
    receiver: &str,
) -> Option<String>
    requires { HasMethod image.now method }
{
    let class = class_of(image, receiver)?;
    reported_method(alloc, image, selected_method(image, method, class)).ok()
}

fn reported_operand_of(
    alloc: Global,
    image: &Image,
    method: MethodId,
    number: u32,
) -> Option<String>
    requires { HasMethod image.now method }
{
    let operand = operand_of(image, method, number)?;
    reported_operand(alloc, image, operand).ok()
}

fn reported(alloc: Global, image: &Image, method: MethodId, asked: &OfMethod) -> Option<String>
    requires { HasMethod image.now method }
{
    match asked {
        OfMethod::Body => reported_body(alloc, image.body(method)).ok(),
        OfMethod::Flags => reported_number(alloc, Some(image.method(method).flags as u32)).ok(),
        OfMethod::SelectedFor(receiver) => reported_selected(alloc, image, method, receiver),
        OfMethod::Operand(number) => reported_operand_of(alloc, image, method, *number),
        OfMethod::Named(number) => {
            reported_class(alloc, image, named_class(image, method, *number)?).ok()
        }
        OfMethod::Caught(range) => {
            reported_class(alloc, image, caught_class(image, method, *range)?).ok()
        }
    }
}

fn is_answered(alloc: Global, image: &Image, row: &MethodRow) -> bool {
    match own_method(image, row.0) {
        Some(method) => match reported(alloc, image, method, &row.1) {
            Some(reported) => reported.as_str() == row.2,
            None => false,
        },
        None => false,
    }
}

#[test]
fn asked_with_numbers(rt: HostRuntime) {
    let image = numbered_image(rt.alloc());
    for table in &NUMBERED_TABLES {
        for row in *table {
            assert!(rt;
                matches!(&image, Some(image) if is_answered(rt.alloc(), image, row)),
                "{:?} {:?}",
                row.0,
                row.1
            );
        }
    }
}

#[test]
fn asked_of_methods(rt: HostRuntime) {
    let image = image(rt.alloc());
    for table in &TABLES {
        for row in *table {
            assert!(rt;
                matches!(&image, Some(image) if is_answered(rt.alloc(), image, row)),
                "{:?} {:?}",
                row.0,
                row.1
            );
        }
    }
}
