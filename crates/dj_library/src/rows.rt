use crate::classes::LibraryHead;
use crate::methods::MethodRow;
use crate::types::TypeRow;
use dj_names::{Base, NativeId};

// The access flags of classes (JVMS table 4.1-A).

/// Public and super.
const CLASS: u16 = 0x0021;

/// Public, final and super.
const FINAL_CLASS: u16 = 0x0031;

/// Public, interface and abstract.
const INTERFACE: u16 = 0x0601;

const BOOLEAN: TypeRow = TypeRow::Base(Base::Boolean);

const CHAR: TypeRow = TypeRow::Base(Base::Char);

const INT: TypeRow = TypeRow::Base(Base::Int);

const LONG: TypeRow = TypeRow::Base(Base::Long);

const CHARS: TypeRow = TypeRow::Array(Base::Char);

const OBJECT: TypeRow = TypeRow::Class(b"java/lang/Object");

const STRING: TypeRow = TypeRow::Class(b"java/lang/String");

const BUILDER: TypeRow = TypeRow::Class(b"java/lang/StringBuilder");

const THROWABLE: TypeRow = TypeRow::Class(b"java/lang/Throwable");

const OBJECT_METHODS: [MethodRow; 4] = [
    MethodRow::Constructor(&[], NativeId::ObjectNew),
    MethodRow::OnObject(b"equals", &[OBJECT], BOOLEAN, NativeId::ObjectEquals),
    MethodRow::OnObject(b"hashCode", &[], INT, NativeId::ObjectHashCode),
    MethodRow::OnObject(b"toString", &[], STRING, NativeId::ObjectToString),
];

const STRING_METHODS: [MethodRow; 18] = [
    MethodRow::OnObject(b"length", &[], INT, NativeId::StringLength),
    MethodRow::OnObject(b"isEmpty", &[], BOOLEAN, NativeId::StringIsEmpty),
    MethodRow::OnObject(b"toString", &[], STRING, NativeId::StringToString),
    MethodRow::OnObject(b"charAt", &[INT], CHAR, NativeId::StringCharAt),
    MethodRow::OnObject(b"equals", &[OBJECT], BOOLEAN, NativeId::StringEquals),
    MethodRow::OnObject(b"hashCode", &[], INT, NativeId::StringHashCode),
    MethodRow::OnObject(b"compareTo", &[STRING], INT, NativeId::StringCompareTo),
    MethodRow::OnObject(
        b"compareTo",
        &[OBJECT],
        INT,
        NativeId::StringCompareToObject,
    ),
    MethodRow::OnObject(
        b"startsWith",
        &[STRING],
        BOOLEAN,
        NativeId::StringStartsWith,
    ),
    MethodRow::OnObject(b"concat", &[STRING], STRING, NativeId::StringConcat),
    MethodRow::OnObject(b"substring", &[INT], STRING, NativeId::StringSubstringFrom),
    MethodRow::OnObject(b"substring", &[INT, INT], STRING, NativeId::StringSubstring),
    MethodRow::OnObject(b"toCharArray", &[], CHARS, NativeId::StringToCharArray),
    MethodRow::Static(b"valueOf", &[CHARS], STRING, NativeId::StringValueOfChars),
    MethodRow::Static(b"valueOf", &[CHAR], STRING, NativeId::StringValueOfChar),
    MethodRow::Static(b"valueOf", &[INT], STRING, NativeId::StringValueOfInt),
    MethodRow::Static(b"valueOf", &[LONG], STRING, NativeId::StringValueOfLong),
    MethodRow::Static(
        b"valueOf",
        &[BOOLEAN],
        STRING,
        NativeId::StringValueOfBoolean,
    ),
];

const BUILDER_METHODS: [MethodRow; 10] = [
    MethodRow::Constructor(&[], NativeId::BuilderNew),
    MethodRow::Constructor(&[STRING], NativeId::BuilderNewText),
    MethodRow::OnObject(b"append", &[STRING], BUILDER, NativeId::BuilderAppendText),
    MethodRow::OnObject(b"append", &[CHAR], BUILDER, NativeId::BuilderAppendChar),
    MethodRow::OnObject(b"append", &[INT], BUILDER, NativeId::BuilderAppendInt),
    MethodRow::OnObject(b"append", &[LONG], BUILDER, NativeId::BuilderAppendLong),
    MethodRow::OnObject(
        b"append",
        &[BOOLEAN],
        BUILDER,
        NativeId::BuilderAppendBoolean,
    ),
    MethodRow::OnObject(b"length", &[], INT, NativeId::BuilderLength),
    MethodRow::OnObject(b"charAt", &[INT], CHAR, NativeId::BuilderCharAt),
    MethodRow::OnObject(b"toString", &[], STRING, NativeId::BuilderToString),
];

const MATH_METHODS: [MethodRow; 6] = [
    MethodRow::Static(b"abs", &[INT], INT, NativeId::AbsInt),
    MethodRow::Static(b"abs", &[LONG], LONG, NativeId::AbsLong),
    MethodRow::Static(b"max", &[INT, INT], INT, NativeId::MaxInts),
    MethodRow::Static(b"max", &[LONG, LONG], LONG, NativeId::MaxLongs),
    MethodRow::Static(b"min", &[INT, INT], INT, NativeId::MinInts),
    MethodRow::Static(b"min", &[LONG, LONG], LONG, NativeId::MinLongs),
];

const SYSTEM_METHODS: [MethodRow; 2] = [
    MethodRow::Static(
        b"identityHashCode",
        &[OBJECT],
        INT,
        NativeId::IdentityHashCode,
    ),
    MethodRow::StaticVoid(
        b"arraycopy",
        &[OBJECT, INT, OBJECT, INT, INT],
        NativeId::ArrayCopy,
    ),
];

const CLOCKS: [MethodRow; 2] = [
    MethodRow::Static(b"nanoTime", &[], LONG, NativeId::NanoTime),
    MethodRow::Static(b"currentTimeMillis", &[], LONG, NativeId::CurrentTimeMillis),
];

const COMPARABLE_METHODS: [MethodRow; 1] = [MethodRow::Abstract(
    b"compareTo",
    &[OBJECT],
    Some(INT),
)];

const SEQUENCE_METHODS: [MethodRow; 3] = [
    MethodRow::Abstract(b"length", &[], Some(INT)),
    MethodRow::Abstract(b"charAt", &[INT], Some(CHAR)),
    MethodRow::Abstract(b"toString", &[], Some(STRING)),
];

const RUNNABLE_METHODS: [MethodRow; 1] = [MethodRow::Abstract(b"run", &[], None)];

const PLAIN_CONSTRUCTORS: [MethodRow; 2] = [
    MethodRow::Constructor(&[], NativeId::ThrowableNew),
    MethodRow::Constructor(&[STRING], NativeId::ThrowableNewMessage),
];

const CAUSE_CONSTRUCTORS: [MethodRow; 3] = [
    MethodRow::Constructor(&[], NativeId::ThrowableNew),
    MethodRow::Constructor(&[STRING], NativeId::ThrowableNewMessage),
    MethodRow::Constructor(&[STRING, THROWABLE], NativeId::ThrowableNewCause),
];

const THROWABLE_METHODS: [MethodRow; 5] = [
    MethodRow::Constructor(&[], NativeId::ThrowableNew),
    MethodRow::Constructor(&[STRING], NativeId::ThrowableNewMessage),
    MethodRow::Constructor(&[STRING, THROWABLE], NativeId::ThrowableNewCause),
    MethodRow::OnObject(b"getMessage", &[], STRING, NativeId::GetMessage),
    MethodRow::OnObject(b"getCause", &[], THROWABLE, NativeId::GetCause),
];

/// The classes, each once.
pub(crate) static CLASSES: [LibraryHead; 25] = [
    LibraryHead {
        name: b"java/lang/Object",
        superclass: None,
        flags: CLASS,
        interfaces: &[],
        fields: 0,
        methods: &OBJECT_METHODS,
        hosts: &[],
    },
    LibraryHead {
        name: b"java/lang/String",
        superclass: Some(b"java/lang/Object"),
        flags: FINAL_CLASS,
        interfaces: &[b"java/lang/Comparable", b"java/lang/CharSequence"],
        fields: 0,
        methods: &STRING_METHODS,
        hosts: &[],
    },
    LibraryHead {
        name: b"java/lang/StringBuilder",
        superclass: Some(b"java/lang/Object"),
        flags: FINAL_CLASS,
        interfaces: &[b"java/lang/CharSequence"],
        fields: 1,
        methods: &BUILDER_METHODS,
        hosts: &[],
    },
    LibraryHead {
        name: b"java/lang/Math",
        superclass: Some(b"java/lang/Object"),
        flags: FINAL_CLASS,
        interfaces: &[],
        fields: 0,
        methods: &MATH_METHODS,
        hosts: &[],
    },
    LibraryHead {
        name: b"java/lang/System",
        superclass: Some(b"java/lang/Object"),
        flags: FINAL_CLASS,
        interfaces: &[],
        fields: 0,
        methods: &SYSTEM_METHODS,
        hosts: &CLOCKS,
    },
    LibraryHead {
        name: b"java/lang/Comparable",
        superclass: Some(b"java/lang/Object"),
        flags: INTERFACE,
        interfaces: &[],
        fields: 0,
        methods: &COMPARABLE_METHODS,
        hosts: &[],
    },
    LibraryHead {
        name: b"java/lang/CharSequence",
        superclass: Some(b"java/lang/Object"),
        flags: INTERFACE,
        interfaces: &[],
        fields: 0,
        methods: &SEQUENCE_METHODS,
        hosts: &[],
    },
    LibraryHead {
        name: b"java/lang/Runnable",
        superclass: Some(b"java/lang/Object"),
        flags: INTERFACE,
        interfaces: &[],
        fields: 0,
        methods: &RUNNABLE_METHODS,
        hosts: &[],
    },
    LibraryHead {
        name: b"java/lang/Cloneable",
        superclass: Some(b"java/lang/Object"),
        flags: INTERFACE,
        interfaces: &[],
        fields: 0,
        methods: &[],
        hosts: &[],
    },
    LibraryHead {
        name: b"java/io/Serializable",
        superclass: Some(b"java/lang/Object"),
        flags: INTERFACE,
        interfaces: &[],
        fields: 0,
        methods: &[],
        hosts: &[],
    },
    LibraryHead {
        name: b"java/lang/Throwable",
        superclass: Some(b"java/lang/Object"),
        flags: CLASS,
        interfaces: &[b"java/io/Serializable"],
        fields: 2,
        methods: &THROWABLE_METHODS,
        hosts: &[],
    },
    LibraryHead {
        name: b"java/lang/Exception",
        superclass: Some(b"java/lang/Throwable"),
        flags: CLASS,
        interfaces: &[],
        fields: 0,
        methods: &CAUSE_CONSTRUCTORS,
        hosts: &[],
    },
    LibraryHead {
        name: b"java/lang/Error",
        superclass: Some(b"java/lang/Throwable"),
        flags: CLASS,
        interfaces: &[],
        fields: 0,
        methods: &CAUSE_CONSTRUCTORS,
        hosts: &[],
    },
    LibraryHead {
        name: b"java/lang/RuntimeException",
        superclass: Some(b"java/lang/Exception"),
        flags: CLASS,
        interfaces: &[],
        fields: 0,
        methods: &CAUSE_CONSTRUCTORS,
        hosts: &[],
    },
    LibraryHead {
        name: b"java/lang/ArithmeticException",
        superclass: Some(b"java/lang/RuntimeException"),
        flags: CLASS,
        interfaces: &[],
        fields: 0,
        methods: &PLAIN_CONSTRUCTORS,
        hosts: &[],
    },
    LibraryHead {
        name: b"java/lang/ArrayStoreException",
        superclass: Some(b"java/lang/RuntimeException"),
        flags: CLASS,
        interfaces: &[],
        fields: 0,
        methods: &PLAIN_CONSTRUCTORS,
        hosts: &[],
    },
    LibraryHead {
        name: b"java/lang/ClassCastException",
        superclass: Some(b"java/lang/RuntimeException"),
        flags: CLASS,
        interfaces: &[],
        fields: 0,
        methods: &PLAIN_CONSTRUCTORS,
        hosts: &[],
    },
    LibraryHead {
        name: b"java/lang/IllegalArgumentException",
        superclass: Some(b"java/lang/RuntimeException"),
        flags: CLASS,
        interfaces: &[],
        fields: 0,
        methods: &CAUSE_CONSTRUCTORS,
        hosts: &[],
    },
    LibraryHead {
        name: b"java/lang/IllegalStateException",
        superclass: Some(b"java/lang/RuntimeException"),
        flags: CLASS,
        interfaces: &[],
        fields: 0,
        methods: &CAUSE_CONSTRUCTORS,
        hosts: &[],
    },
    LibraryHead {
        name: b"java/lang/IndexOutOfBoundsException",
        superclass: Some(b"java/lang/RuntimeException"),
        flags: CLASS,
        interfaces: &[],
        fields: 0,
        methods: &PLAIN_CONSTRUCTORS,
        hosts: &[],
    },
    LibraryHead {
        name: b"java/lang/NegativeArraySizeException",
        superclass: Some(b"java/lang/RuntimeException"),
        flags: CLASS,
        interfaces: &[],
        fields: 0,
        methods: &PLAIN_CONSTRUCTORS,
        hosts: &[],
    },
    LibraryHead {
        name: b"java/lang/NullPointerException",
        superclass: Some(b"java/lang/RuntimeException"),
        flags: CLASS,
        interfaces: &[],
        fields: 0,
        methods: &PLAIN_CONSTRUCTORS,
        hosts: &[],
    },
    LibraryHead {
        name: b"java/lang/UnsupportedOperationException",
        superclass: Some(b"java/lang/RuntimeException"),
        flags: CLASS,
        interfaces: &[],
        fields: 0,
        methods: &CAUSE_CONSTRUCTORS,
        hosts: &[],
    },
    LibraryHead {
        name: b"java/lang/ArrayIndexOutOfBoundsException",
        superclass: Some(b"java/lang/IndexOutOfBoundsException"),
        flags: CLASS,
        interfaces: &[],
        fields: 0,
        methods: &PLAIN_CONSTRUCTORS,
        hosts: &[],
    },
    LibraryHead {
        name: b"java/lang/StringIndexOutOfBoundsException",
        superclass: Some(b"java/lang/IndexOutOfBoundsException"),
        flags: CLASS,
        interfaces: &[],
        fields: 0,
        methods: &PLAIN_CONSTRUCTORS,
        hosts: &[],
    },
];

const SANDBOX_OBJECT: &[u8] = b"sandbox/java/lang/Object";

const ACCOUNTER_METHODS: [MethodRow; 6] = [
    MethodRow::StaticVoid(b"recordJump", &[], NativeId::RecordJump),
    MethodRow::StaticVoid(b"recordInvocation", &[], NativeId::RecordInvocation),
    MethodRow::StaticVoid(b"recordThrow", &[], NativeId::RecordThrow),
    MethodRow::StaticVoid(b"recordAllocation", &[INT], NativeId::RecordAllocation),
    MethodRow::StaticVoid(b"recordArray", &[INT, INT], NativeId::RecordArray),
    MethodRow::StaticVoid(
        b"checkCatch",
        &[TypeRow::Class(SANDBOX_OBJECT)],
        NativeId::CheckCatch,
    ),
];

/// The class that rewritten code calls, and that of the object which stops a run. Their names are whole, in contrast to those above.
pub(crate) static SANDBOX_CLASSES: [LibraryHead; 2] = [
    LibraryHead {
        name: b"djvm/Accounter",
        superclass: Some(SANDBOX_OBJECT),
        flags: CLASS,
        interfaces: &[],
        fields: 0,
        methods: &ACCOUNTER_METHODS,
        hosts: &[],
    },
    LibraryHead {
        name: b"djvm/Stop",
        superclass: Some(SANDBOX_OBJECT),
        flags: CLASS,
        interfaces: &[],
        fields: 0,
        methods: &[],
        hosts: &[],
    },
];
