ghost use Rattle.std.specs.Prelude.{◌<◌, length};
ghost use Rattle.dj_numbering.specs.Typed.{types_of};
ghost use Rattle.dj_image.specs.Imaged.{typed_of};

use crate::answers::{
    reported_bool, reported_class, reported_classes, reported_field, reported_method,
    reported_number,
};
use crate::members::{class_of, field_at, field_count, method_at, resolved_field, resolved_method};
use crate::set::{image, raw_image};
use dj_image::Image;
use std::alloc::{AllocError, Global};

// What is asked of a class or an array.
#[derive(Debug)]
enum OfClass {
    Super,
    Component,
    Interfaces,
    Flags,
    FieldCount,
    // Whether it is a subtype.
    IsBelow(&'static str),
    // What a name and a descriptor resolve to.
    Field(&'static str, &'static str),
    Method(&'static str, &'static str),
    // The member at a place.
    FieldAt(u32),
    MethodAt(u32),
}

// A class or an array, what is asked of it, and the answer: a class by its name, an array by its descriptor, and a member by the class that declares it, its name and its descriptor.
type ClassRow = (&'static str, OfClass, &'static str);

const ABOVE: [ClassRow; 29] = [
    ("A", OfClass::Super, "java/lang/Object"),
    ("p/B", OfClass::Super, "A"),
    ("C", OfClass::Super, "p/B"),
    ("I", OfClass::Super, "java/lang/Object"),
    ("x/X", OfClass::Super, "java/lang/IllegalStateException"),
    ("java/lang/Object", OfClass::Super, "None"),
    (
        "java/lang/IllegalStateException",
        OfClass::Super,
        "java/lang/RuntimeException",
    ),
    ("[I", OfClass::Super, "None"),
    ("[LC;", OfClass::Super, "None"),
    ("java/lang/Runnable", OfClass::Super, "java/lang/Object"),
    ("[LC;", OfClass::Component, "C"),
    ("[LI;", OfClass::Component, "I"),
    ("[[I", OfClass::Component, "[I"),
    ("[[[I", OfClass::Component, "[[I"),
    ("[[[J", OfClass::Component, "[[J"),
    ("[[J", OfClass::Component, "[J"),
    ("[J", OfClass::Component, "None"),
    ("[I", OfClass::Component, "None"),
    ("[B", OfClass::Component, "None"),
    ("C", OfClass::Component, "None"),
    ("java/lang/String", OfClass::Component, "None"),
    ("A", OfClass::Interfaces, "I"),
    ("p/B", OfClass::Interfaces, "J"),
    ("C", OfClass::Interfaces, "K"),
    ("J", OfClass::Interfaces, "I"),
    ("I", OfClass::Interfaces, "-"),
    (
        "java/lang/String",
        OfClass::Interfaces,
        "java/lang/Comparable java/lang/CharSequence",
    ),
    (
        "java/lang/Throwable",
        OfClass::Interfaces,
        "java/io/Serializable",
    ),
    ("java/lang/Object", OfClass::Interfaces, "-"),
];

const COUNTS: [ClassRow; 18] = [
    ("A", OfClass::Flags, "1057"),
    ("C", OfClass::Flags, "33"),
    ("I", OfClass::Flags, "1537"),
    ("x/X", OfClass::Flags, "33"),
    ("java/lang/String", OfClass::Flags, "49"),
    ("[LC;", OfClass::Flags, "0"),
    ("A", OfClass::FieldCount, "2"),
    ("p/B", OfClass::FieldCount, "3"),
    ("C", OfClass::FieldCount, "4"),
    ("I", OfClass::FieldCount, "0"),
    ("x/X", OfClass::FieldCount, "3"),
    ("java/lang/Throwable", OfClass::FieldCount, "2"),
    ("java/lang/NullPointerException", OfClass::FieldCount, "2"),
    ("java/lang/StringBuilder", OfClass::FieldCount, "1"),
    ("java/lang/String", OfClass::FieldCount, "0"),
    ("java/lang/Object", OfClass::FieldCount, "0"),
    ("java/lang/Runnable", OfClass::FieldCount, "0"),
    ("[I", OfClass::FieldCount, "None"),
];

const SUBTYPES_1: [ClassRow; 22] = [
    ("A", OfClass::IsBelow("I"), "true"),
    ("C", OfClass::IsBelow("A"), "true"),
    ("C", OfClass::IsBelow("C"), "true"),
    ("C", OfClass::IsBelow("I"), "true"),
    ("C", OfClass::IsBelow("J"), "true"),
    ("C", OfClass::IsBelow("K"), "true"),
    ("C", OfClass::IsBelow("java/lang/Object"), "true"),
    ("C", OfClass::IsBelow("p/B"), "true"),
    ("I", OfClass::IsBelow("java/lang/Object"), "true"),
    ("J", OfClass::IsBelow("I"), "true"),
    ("[B", OfClass::IsBelow("java/io/Serializable"), "true"),
    ("[I", OfClass::IsBelow("[I"), "true"),
    ("[I", OfClass::IsBelow("java/lang/Cloneable"), "true"),
    ("[LC;", OfClass::IsBelow("[LI;"), "true"),
    ("[LC;", OfClass::IsBelow("java/lang/Object"), "true"),
    ("[[I", OfClass::IsBelow("java/lang/Object"), "true"),
    ("[[[I", OfClass::IsBelow("[[[I"), "true"),
    (
        "java/lang/ArrayIndexOutOfBoundsException",
        OfClass::IsBelow("java/lang/IndexOutOfBoundsException"),
        "true",
    ),
    (
        "java/lang/String",
        OfClass::IsBelow("java/lang/CharSequence"),
        "true",
    ),
    ("p/B", OfClass::IsBelow("I"), "true"),
    ("p/B", OfClass::IsBelow("J"), "true"),
    ("x/X", OfClass::IsBelow("java/io/Serializable"), "true"),
];

const SUBTYPES_2: [ClassRow; 22] = [
    ("x/X", OfClass::IsBelow("java/lang/Throwable"), "true"),
    ("A", OfClass::IsBelow("C"), "false"),
    ("A", OfClass::IsBelow("J"), "false"),
    ("I", OfClass::IsBelow("A"), "false"),
    ("I", OfClass::IsBelow("J"), "false"),
    ("K", OfClass::IsBelow("C"), "false"),
    ("[B", OfClass::IsBelow("[C"), "false"),
    ("[I", OfClass::IsBelow("[B"), "false"),
    ("[I", OfClass::IsBelow("[[I"), "false"),
    ("[I", OfClass::IsBelow("java/lang/Comparable"), "false"),
    ("[LC;", OfClass::IsBelow("C"), "false"),
    ("[LI;", OfClass::IsBelow("[LC;"), "false"),
    ("[[I", OfClass::IsBelow("[I"), "false"),
    ("[[[I", OfClass::IsBelow("[[I"), "false"),
    ("java/lang/Cloneable", OfClass::IsBelow("[I"), "false"),
    (
        "java/lang/IndexOutOfBoundsException",
        OfClass::IsBelow("java/lang/StringIndexOutOfBoundsException"),
        "false",
    ),
    ("java/lang/Object", OfClass::IsBelow("C"), "false"),
    ("java/lang/Object", OfClass::IsBelow("[I"), "false"),
    (
        "java/lang/String",
        OfClass::IsBelow("java/io/Serializable"),
        "false",
    ),
    (
        "java/lang/StringBuilder",
        OfClass::IsBelow("java/lang/Comparable"),
        "false",
    ),
    ("p/B", OfClass::IsBelow("K"), "false"),
    ("x/X", OfClass::IsBelow("java/lang/Error"), "false"),
];

const FIELDS: [ClassRow; 25] = [
    ("A", OfClass::Field("i", "I"), "A i I"),
    ("p/B", OfClass::Field("i", "I"), "p/B i I"),
    ("C", OfClass::Field("i", "I"), "p/B i I"),
    ("C", OfClass::Field("s", "I"), "A s I"),
    ("C", OfClass::Field("p", "J"), "A p J"),
    ("A", OfClass::Field("k", "I"), "I k I"),
    ("p/B", OfClass::Field("k", "I"), "J k I"),
    ("C", OfClass::Field("k", "I"), "J k I"),
    ("J", OfClass::Field("k", "I"), "J k I"),
    ("I", OfClass::Field("k", "I"), "I k I"),
    ("C", OfClass::Field("j", "J"), "K j J"),
    ("p/B", OfClass::Field("j", "J"), "J j J"),
    ("C", OfClass::Field("d", "I"), "I d I"),
    ("C", OfClass::Field("z", "[[LC;"), "C z [[LC;"),
    (
        "C",
        OfClass::Field("c", "Ljava/lang/String;"),
        "p/B c Ljava/lang/String;",
    ),
    ("J", OfClass::Field("d", "I"), "I d I"),
    ("x/X", OfClass::Field("own", "I"), "x/X own I"),
    ("A", OfClass::Field("i", "J"), "None"),
    ("A", OfClass::Field("z", "[[LC;"), "None"),
    ("K", OfClass::Field("k", "I"), "None"),
    ("I", OfClass::Field("j", "J"), "None"),
    (
        "x/X",
        OfClass::Field("message", "Ljava/lang/String;"),
        "None",
    ),
    (
        "java/lang/Throwable",
        OfClass::Field("message", "Ljava/lang/String;"),
        "None",
    ),
    ("java/lang/String", OfClass::Field("value", "[C"), "None"),
    ("[I", OfClass::Field("length", "I"), "None"),
];

const METHODS_1: [ClassRow; 25] = [
    ("A", OfClass::Method("m", "()V"), "A m ()V"),
    ("p/B", OfClass::Method("m", "()V"), "p/B m ()V"),
    ("C", OfClass::Method("m", "()V"), "C m ()V"),
    ("C", OfClass::Method("priv", "()V"), "p/B priv ()V"),
    ("A", OfClass::Method("priv", "()V"), "A priv ()V"),
    ("C", OfClass::Method("st", "()V"), "p/B st ()V"),
    ("A", OfClass::Method("abs", "()V"), "A abs ()V"),
    ("C", OfClass::Method("abs", "()V"), "p/B abs ()V"),
    ("A", OfClass::Method("q", "()V"), "I q ()V"),
    ("p/B", OfClass::Method("q", "()V"), "I q ()V"),
    ("C", OfClass::Method("q", "()V"), "C q ()V"),
    ("C", OfClass::Method("r", "()V"), "K r ()V"),
    ("p/B", OfClass::Method("r", "()V"), "J r ()V"),
    ("C", OfClass::Method("only", "()V"), "K only ()V"),
    ("C", OfClass::Method("over", "(I)I"), "C over (I)I"),
    ("p/B", OfClass::Method("over", "(I)I"), "p/B over (I)I"),
    (
        "C",
        OfClass::Method("hashCode", "()I"),
        "java/lang/Object hashCode ()I",
    ),
    ("I", OfClass::Method("hashCode", "()I"), "I hashCode ()I"),
    (
        "J",
        OfClass::Method("hashCode", "()I"),
        "java/lang/Object hashCode ()I",
    ),
    (
        "K",
        OfClass::Method("hashCode", "()I"),
        "java/lang/Object hashCode ()I",
    ),
    ("J", OfClass::Method("q", "()V"), "I q ()V"),
    ("J", OfClass::Method("r", "()V"), "J r ()V"),
    ("J", OfClass::Method("sj", "()V"), "J sj ()V"),
    ("J", OfClass::Method("pj", "()V"), "J pj ()V"),
    (
        "I",
        OfClass::Method("<init>", "()V"),
        "java/lang/Object <init> ()V",
    ),
];

const METHODS_2: [ClassRow; 25] = [
    (
        "C",
        OfClass::Method("<init>", "()V"),
        "java/lang/Object <init> ()V",
    ),
    (
        "x/X",
        OfClass::Method("<init>", "()V"),
        "java/lang/IllegalStateException <init> ()V",
    ),
    (
        "x/X",
        OfClass::Method("<init>", "(Ljava/lang/String;Ljava/lang/Throwable;)V"),
        "java/lang/IllegalStateException <init> (Ljava/lang/String;Ljava/lang/Throwable;)V",
    ),
    (
        "java/lang/ArithmeticException",
        OfClass::Method("<init>", "(Ljava/lang/String;Ljava/lang/Throwable;)V"),
        "java/lang/RuntimeException <init> (Ljava/lang/String;Ljava/lang/Throwable;)V",
    ),
    (
        "x/X",
        OfClass::Method("getMessage", "()Ljava/lang/String;"),
        "java/lang/Throwable getMessage ()Ljava/lang/String;",
    ),
    (
        "x/X",
        OfClass::Method("toString", "()Ljava/lang/String;"),
        "java/lang/Object toString ()Ljava/lang/String;",
    ),
    (
        "java/lang/CharSequence",
        OfClass::Method("toString", "()Ljava/lang/String;"),
        "java/lang/CharSequence toString ()Ljava/lang/String;",
    ),
    (
        "java/lang/CharSequence",
        OfClass::Method("hashCode", "()I"),
        "java/lang/Object hashCode ()I",
    ),
    (
        "java/lang/StringBuilder",
        OfClass::Method("equals", "(Ljava/lang/Object;)Z"),
        "java/lang/Object equals (Ljava/lang/Object;)Z",
    ),
    (
        "java/lang/String",
        OfClass::Method("compareTo", "(Ljava/lang/Object;)I"),
        "java/lang/String compareTo (Ljava/lang/Object;)I",
    ),
    (
        "[I",
        OfClass::Method("hashCode", "()I"),
        "java/lang/Object hashCode ()I",
    ),
    (
        "[LC;",
        OfClass::Method("equals", "(Ljava/lang/Object;)Z"),
        "java/lang/Object equals (Ljava/lang/Object;)Z",
    ),
    (
        "I",
        OfClass::Method("equals", "(Ljava/lang/Object;)Z"),
        "java/lang/Object equals (Ljava/lang/Object;)Z",
    ),
    ("C", OfClass::Method("sj", "()V"), "None"),
    ("C", OfClass::Method("pj", "()V"), "None"),
    ("p/B", OfClass::Method("sj", "()V"), "None"),
    ("A", OfClass::Method("m", "(I)V"), "None"),
    ("I", OfClass::Method("r", "()V"), "None"),
    ("K", OfClass::Method("q", "()V"), "None"),
    ("I", OfClass::Method("m", "()V"), "None"),
    ("[LC;", OfClass::Method("over", "(I)I"), "None"),
    (
        "java/lang/Object",
        OfClass::Method("getClass", "()Ljava/lang/Class;"),
        "None",
    ),
    (
        "java/lang/Object",
        OfClass::Method("clone", "()Ljava/lang/Object;"),
        "None",
    ),
    (
        "java/lang/System",
        OfClass::Method("nanoTime", "()J"),
        "None",
    ),
    (
        "[I",
        OfClass::Method("clone", "()Ljava/lang/Object;"),
        "None",
    ),
];

const PLACES: [ClassRow; 16] = [
    ("A", OfClass::MethodAt(0), "A m ()V"),
    ("A", OfClass::MethodAt(3), "A abs ()V"),
    ("A", OfClass::MethodAt(4), "A over (I)I"),
    ("A", OfClass::MethodAt(5), "None"),
    ("C", OfClass::MethodAt(2), "C q ()V"),
    ("C", OfClass::MethodAt(3), "None"),
    ("K", OfClass::MethodAt(1), "K only ()V"),
    ("[I", OfClass::MethodAt(0), "None"),
    ("A", OfClass::FieldAt(0), "A i I"),
    ("A", OfClass::FieldAt(1), "A s I"),
    ("A", OfClass::FieldAt(2), "A p J"),
    ("A", OfClass::FieldAt(3), "None"),
    ("p/B", OfClass::FieldAt(1), "p/B c Ljava/lang/String;"),
    ("K", OfClass::FieldAt(0), "K j J"),
    ("java/lang/Throwable", OfClass::FieldAt(0), "None"),
    ("[I", OfClass::FieldAt(0), "None"),
];

const TABLES: [&[ClassRow]; 8] = [
    &ABOVE,
    &COUNTS,
    &SUBTYPES_1,
    &SUBTYPES_2,
    &FIELDS,
    &METHODS_1,
    &METHODS_2,
    &PLACES,
];

// The answers of flags and counts.
fn number(image: &Image, class: u32, asked: &OfClass) -> Option<u32>
    requires { class < length (types_of (typed_of image.now)) }
{
    match asked {
        OfClass::Flags => Some(image.flags_of(class) as u32),
        OfClass::FieldCount => field_count(image, class),
        _ => None,
    }
}

// The members that are answered.
fn reported_found(
    alloc: Global,
    image: &Image,
    class: u32,
    asked: &OfClass,
) -> Result<String, AllocError>
    requires { class < length (types_of (typed_of image.now)) }
{
    match asked {
        OfClass::Field(name, desc) => {
            reported_field(alloc, image, resolved_field(image, class, name, desc))
        }
        OfClass::Method(name, desc) => {
            reported_method(alloc, image, resolved_method(image, class, name, desc))
        }
        OfClass::FieldAt(at) => reported_field(alloc, image, field_at(image, class, *at)),
        OfClass::MethodAt(at) => reported_method(alloc, image, method_at(image, class, *at)),
        _ => reported_number(alloc, number(image, class, asked)),
    }
}

fn reported(alloc: Global, image: &Image, class: u32, asked: &OfClass) -> Result<String, AllocError>
    requires { class < length (types_of (typed_of image.now)) }
{
    match asked {
        OfClass::Super => reported_class(alloc, image, image.super_of(class)),
        OfClass::Component => reported_class(alloc, image, image.component(class)),
        OfClass::Interfaces => reported_classes(alloc, image, image.interfaces_of(class)),
        OfClass::IsBelow(above) => reported_bool(alloc, is_below(image, class, above)),
        _ => reported_found(alloc, image, class, asked),
    }
}

fn is_below(image: &Image, class: u32, above: &str) -> Option<bool>
    requires { class < length (types_of (typed_of image.now)) }
{
    let above = class_of(image, above)?;
    Some(image.sub_type(class, above))
}

fn is_answered(alloc: Global, image: &Image, row: &ClassRow) -> bool {
    match class_of(image, row.0) {
        Some(class) => match reported(alloc, image, class, &row.1) {
            Ok(reported) => reported.as_str() == row.2,
            Err(_) => false,
        },
        None => false,
    }
}

#[test]
fn asked_of_classes(rt: HostRuntime) {
    let image = image(rt.alloc());
    for table in &TABLES {
        for row in *table {
            assert!(rt;
                matches!(&image, Some(image) if is_answered(rt.alloc(), image, row)),
                "{} {:?}",
                row.0,
                row.1
            );
        }
    }
}

// The clocks, which the raw library alone has.
const CLOCKS: [ClassRow; 2] = [
    (
        "java/lang/System",
        OfClass::Method("nanoTime", "()J"),
        "java/lang/System nanoTime ()J",
    ),
    (
        "java/lang/System",
        OfClass::Method("currentTimeMillis", "()J"),
        "java/lang/System currentTimeMillis ()J",
    ),
];

#[test]
fn clocks_of_the_raw_library(rt: HostRuntime) {
    let image = raw_image(rt.alloc());
    for row in &CLOCKS {
        assert!(rt;
            matches!(&image, Some(image) if is_answered(rt.alloc(), image, row)),
            "{:?}",
            row.1
        );
    }
}
