ghost use Rattle.std.specs.Prelude.{◌≡◌, ◌++◌};
ghost use Rattle.dj_names.specs.trusted.Types.{base_array};
ghost use Rattle.dj_names.specs.Types.{sandbox_prefix};
ghost use Rattle.dj_names.specs.trusted.Values.{raised_class};
ghost use Rattle.dj_model.specs.trusted.Types.{string_name};
ghost use Rattle.dj_class_table.specs.Tables.{class_number};
ghost use Rattle.dj_resolution.specs.Linked.{prefix_of};
ghost use Rattle.dj_numbering.specs.Kept.{AreKept, types_kept};
ghost use Rattle.dj_numbering.specs.Own.{AreOwn, array_at, array_in, raised_in};
ghost use Rattle.dj_numbering.specs.Typed.{stop_under, text_number, text_of_type};

use crate::arrays::{Arrays, number_in};
use dj_names::{Base, Raised};
use dj_resolution::{BaseNames, Linker};

/// The numbers of the classes that a machine asks for by name, looked up once: a step of a run may ask them.
#[derive(Clone, Copy, Debug)]
pub struct OwnClasses {
    /// The class String.
    pub string: Option<u32>,
    /// The arrays of base types.
    pub booleans: Option<u32>,
    pub bytes: Option<u32>,
    pub chars: Option<u32>,
    pub shorts: Option<u32>,
    pub ints: Option<u32>,
    pub longs: Option<u32>,
    pub floats: Option<u32>,
    pub doubles: Option<u32>,
    /// The class of the object that stops a run.
    pub stop: Option<u32>,
    /// The classes of the exceptions of instructions' own.
    pub arithmetic: Option<u32>,
    pub array_index_out_of_bounds: Option<u32>,
    pub array_store: Option<u32>,
    pub class_cast: Option<u32>,
    pub negative_array_size: Option<u32>,
    pub null_pointer: Option<u32>,
    pub string_index_out_of_bounds: Option<u32>,
}

/// The name of the class of an exception of an instruction's own.
pub fn raised_name(base: BaseNames, raised: Raised) -> &'static [u8]
    ensures { result.now ≡ prefix_of base ++ raised_class raised }
{
    match base {
        BaseNames::Plain => plain_name(raised),
        BaseNames::Sandbox => sandbox_name(raised),
    }
}

fn plain_name(raised: Raised) -> &'static [u8]
    ensures { result.now ≡ raised_class raised }
{
    match raised {
        Raised::Arithmetic => b"java/lang/ArithmeticException",
        Raised::ArrayIndexOutOfBounds => b"java/lang/ArrayIndexOutOfBoundsException",
        Raised::ArrayStore => b"java/lang/ArrayStoreException",
        Raised::ClassCast => b"java/lang/ClassCastException",
        Raised::NegativeArraySize => b"java/lang/NegativeArraySizeException",
        Raised::NullPointer => b"java/lang/NullPointerException",
        Raised::StringIndexOutOfBounds => b"java/lang/StringIndexOutOfBoundsException",
    }
}

fn sandbox_name(raised: Raised) -> &'static [u8]
    ensures { result.now ≡ sandbox_prefix ++ raised_class raised }
{
    match raised {
        Raised::Arithmetic => b"sandbox/java/lang/ArithmeticException",
        Raised::ArrayIndexOutOfBounds => b"sandbox/java/lang/ArrayIndexOutOfBoundsException",
        Raised::ArrayStore => b"sandbox/java/lang/ArrayStoreException",
        Raised::ClassCast => b"sandbox/java/lang/ClassCastException",
        Raised::NegativeArraySize => b"sandbox/java/lang/NegativeArraySizeException",
        Raised::NullPointer => b"sandbox/java/lang/NullPointerException",
        Raised::StringIndexOutOfBounds => b"sandbox/java/lang/StringIndexOutOfBoundsException",
    }
}

// The name of String.
fn string_of(base: BaseNames) -> &'static [u8]
    ensures { result.now ≡ string_name (prefix_of base) }
{
    match base {
        BaseNames::Plain => b"java/lang/String",
        BaseNames::Sandbox => b"sandbox/java/lang/String",
    }
}

// The class String.
fn string_in(linker: &Linker) -> Option<u32>
    ensures { result ≡ class_number linker.now.program (string_name linker.now.prefix) }
{
    linker.classes().class_named(string_of(linker.base()))
}

// The class of the object that stops a run, where it is there.
fn stop_in(linker: &Linker) -> Option<u32>
    ensures { result ≡ stop_under linker.now.prefix linker.now.program }
{
    match linker.base() {
        BaseNames::Plain => None,
        BaseNames::Sandbox => linker.classes().class_named(b"djvm/Stop"),
    }
}

// The class of a name, or the array of a descriptor.
fn number_of(linker: &Linker, kept: &Arrays, name: &[u8]) -> Option<u32>
    requires { AreKept linker.now.program (types_kept linker.now.program kept.now) kept.now }
    ensures { result ≡ text_number (record { program = linker.now.program; prefix = linker.now.prefix; arrays = types_kept linker.now.program kept.now }) name.now }
{
    number_in(linker.classes(), &kept.wholes, &kept.shapes, name)
}

// The descriptor of the arrays of a base type.
fn array_text(base: Base) -> &'static [u8]
    ensures { result.now ≡ text_of_type (base_array base) }
{
    match base {
        Base::Boolean => b"[Z",
        Base::Byte => b"[B",
        Base::Char => b"[C",
        Base::Short => b"[S",
        Base::Int => b"[I",
        Base::Long => b"[J",
        Base::Float => b"[F",
        Base::Double => b"[D",
    }
}

// The arrays of a base type.
fn array_number(linker: &Linker, kept: &Arrays, base: Base) -> Option<u32>
    requires { AreKept linker.now.program (types_kept linker.now.program kept.now) kept.now }
    ensures { result ≡ array_at (record { program = linker.now.program; prefix = linker.now.prefix; arrays = types_kept linker.now.program kept.now }) base }
{
    number_of(linker, kept, array_text(base))
}

// The class of an exception of an instruction's own.
fn raised_number(linker: &Linker, kept: &Arrays, raised: Raised) -> Option<u32>
    requires { AreKept linker.now.program (types_kept linker.now.program kept.now) kept.now }
    ensures { result ≡ text_number (record { program = linker.now.program; prefix = linker.now.prefix; arrays = types_kept linker.now.program kept.now }) (linker.now.prefix ++ raised_class raised) }
{
    number_of(linker, kept, raised_name(linker.base(), raised))
}

impl OwnClasses {
    /// Of these classes and arrays.
    #[tactic(auto, using(crate::proofs::OwnLaws::are_own))]
    pub fn of(linker: &Linker, kept: &Arrays) -> OwnClasses
        requires { AreKept linker.now.program (types_kept linker.now.program kept.now) kept.now }
        ensures { AreOwn (record { program = linker.now.program; prefix = linker.now.prefix; arrays = types_kept linker.now.program kept.now }) result }
    {
        OwnClasses {
            string: string_in(linker),
            booleans: array_number(linker, kept, Base::Boolean),
            bytes: array_number(linker, kept, Base::Byte),
            chars: array_number(linker, kept, Base::Char),
            shorts: array_number(linker, kept, Base::Short),
            ints: array_number(linker, kept, Base::Int),
            longs: array_number(linker, kept, Base::Long),
            floats: array_number(linker, kept, Base::Float),
            doubles: array_number(linker, kept, Base::Double),
            stop: stop_in(linker),
            arithmetic: raised_number(linker, kept, Raised::Arithmetic),
            array_index_out_of_bounds: raised_number(linker, kept, Raised::ArrayIndexOutOfBounds),
            array_store: raised_number(linker, kept, Raised::ArrayStore),
            class_cast: raised_number(linker, kept, Raised::ClassCast),
            negative_array_size: raised_number(linker, kept, Raised::NegativeArraySize),
            null_pointer: raised_number(linker, kept, Raised::NullPointer),
            string_index_out_of_bounds: raised_number(linker, kept, Raised::StringIndexOutOfBounds),
        }
    }

    /// The arrays of a base type.
    pub fn array(&self, base: Base) -> Option<u32>
        ensures { result ≡ array_in self.now base }
    {
        match base {
            Base::Boolean => self.booleans,
            Base::Byte => self.bytes,
            Base::Char => self.chars,
            Base::Short => self.shorts,
            Base::Int => self.ints,
            Base::Long => self.longs,
            Base::Float => self.floats,
            Base::Double => self.doubles,
        }
    }

    /// The class of an exception of an instruction's own.
    pub fn raised(&self, raised: Raised) -> Option<u32>
        ensures { result ≡ raised_in self.now raised }
    {
        match raised {
            Raised::Arithmetic => self.arithmetic,
            Raised::ArrayIndexOutOfBounds => self.array_index_out_of_bounds,
            Raised::ArrayStore => self.array_store,
            Raised::ClassCast => self.class_cast,
            Raised::NegativeArraySize => self.negative_array_size,
            Raised::NullPointer => self.null_pointer,
            Raised::StringIndexOutOfBounds => self.string_index_out_of_bounds,
        }
    }
}
