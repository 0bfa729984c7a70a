ghost use Rattle.std.specs.Prelude.{◌≡◌, ◌<◌, length, map, Some, None, slice_get};
ghost use Rattle.std.specs.Option.{option_map};
ghost use Rattle.dj_model.specs.trusted.Linking.{place_of};
ghost use Rattle.dj_declarations.specs.Files.{bare_class};
ghost use Rattle.dj_declarations.specs.Members.{IsDescriptor};
ghost use Rattle.dj_numbering.specs.Typed.{texts_of, types_of, text_number, flags_at, super_at, interfaces_at, component_at, is_subtype_at, string_at, chars_at, stop_at};
ghost use Rattle.dj_numbering.specs.Own.{raised_at};
ghost use Rattle.dj_numbering.specs.Members.{all_methods, all_fields, field_count_at, resolved_method, resolved_field, selected, special_of, found_method_number, found_field_number, IsMethodThere, IsFieldThere, IsNthMethod, IsNthField, number_of_method, number_of_field};
ghost use Rattle.dj_image.specs.Imaged.{program_of, typed_of, IsNumbered};
ghost use Rattle.dj_image.specs.Codes.{HasInstr, HasRange, IsOperandAt, IsNamedAt, IsCaughtAt, IsConstantAt, IsBodyAt};
ghost use Rattle.dj_image.specs.Shaped.{AreShapePartsAt};

use crate::operand::Operand;
use crate::parts::ClassParts;
use crate::shaped::{ShapeParts, shape_parts};
use crate::taken::{
    caught_kept, code_at, constant_at, instr_at, named_kept, operand_there, range_at,
};
use dj_early_rules::index_of;
use dj_names::{NativeId, Raised, Units};
use dj_numbering::{FieldId, Linker, MemberOf, MethodId, Types};
use dj_program::MethodCode;
use std::marker::Model;

/// The body of a method.
#[derive(Debug, Drop)]
pub enum Body<'i> {
    Abstract,
    /// A method of the library.
    Native(NativeId),
    Code(&'i MethodCode),
}

/// A program with numbers for its classes, its arrays, its members and its texts.
#[derive(Drop)]
pub struct Image {
    pub(crate) types: Types,
    // By the number of a class.
    pub(crate) parts: Vec<ClassParts>,
    pub(crate) texts: Vec<Units>,
    // By the number of a class and the index of a constant: what it is as an operand, the class that it names, and the array of which the elements are of that class.
    pub(crate) operands: Vec<Vec<Operand>>,
    pub(crate) named: Vec<Vec<Option<u32>>>,
    pub(crate) made: Vec<Vec<Option<u32>>>,
    // By the number of a class and the place of a field: what its constant is as an operand.
    pub(crate) constants: Vec<Vec<Operand>>,
}

impl Model for Image {
    ghost use Rattle.dj_image.specs.Imaged.{Imaged};
    ghost use Rattle.dj_image.specs.Parts.{sources_of};
    ghost use Rattle.dj_image.specs.Tables.{AreTables};

    ghost Value = { Imaged };

    ghost view = { λ image. record {
      sources = sources_of image.types.program image.parts.items;
      prefix = image.types.prefix;
      arrays = image.types.arrays;
      texts = image.texts.items;
    } };

    ghost invariant = { λ image. AreTables image.types image.parts.items image.texts.items image.operands.items image.named.items image.made.items image.constants.items };
}

impl Image {
    /// The classes with their look-ups, without code.
    pub fn linker(&self) -> &Linker
        ensures { result.now ≡ record { program = map bare_class (program_of self.now); prefix = self.now.prefix } }
    {
        let linker = self.types.linker();
        linker.classes().are_bare();
        linker
    }

    /// What rule 19, SHAPE, needs to know of a method; none where it has no code.
    pub fn shape_parts(&self, method: MethodId) -> Option<ShapeParts<'_>>
        requires { method.number < length (all_methods (program_of self.now)) }
        ensures { AreShapePartsAt self.now method.number result }
    {
        let place = self.types.place_of_method(method);
        shape_parts(&self.parts, place)
    }

    /// The number of classes and arrays.
    pub fn class_count(&self) -> u32
        ensures { result ≡ length (types_of (typed_of self.now)) }
    {
        self.types.class_count()
    }

    /// The number of the class of this name, or of the array of this descriptor.
    pub fn class_named(&self, name: &[u8]) -> Option<u32>
        ensures { result ≡ text_number (typed_of self.now) name.now }
    {
        self.types.class_named(name)
    }

    /// The name of a class, or the descriptor of an array.
    pub fn name_of(&self, class: u32) -> &[u8]
        requires { class < length (types_of (typed_of self.now)) }
        ensures { slice_get (texts_of (typed_of self.now)) class ≡ Some result.now }
    {
        self.types.name_of(class)
    }

    /// The access flags of a class (JVMS table 4.1-A); 0 for an array.
    pub fn flags_of(&self, class: u32) -> u16
        requires { class < length (types_of (typed_of self.now)) }
        ensures { result ≡ flags_at (typed_of self.now) class }
    {
        self.types.flags_of(class)
    }

    /// The superclass; none for an array and for a class without a superclass.
    pub fn super_of(&self, class: u32) -> Option<u32>
        requires { class < length (types_of (typed_of self.now)) }
        ensures { result ≡ super_at (typed_of self.now) class }
    {
        self.types.super_of(class)
    }

    /// The interfaces that a class lists; none for an array.
    pub fn interfaces_of(&self, class: u32) -> &[u32]
        requires { class < length (types_of (typed_of self.now)) }
        ensures { result.now ≡ interfaces_at (typed_of self.now) class }
    {
        self.types.interfaces_of(class)
    }

    /// What the elements of an array of references are; none for a class and for an array of a base type.
    pub fn component(&self, class: u32) -> Option<u32>
        requires { class < length (types_of (typed_of self.now)) }
        ensures { result ≡ component_at (typed_of self.now) class }
    {
        self.types.component(class)
    }

    /// Whether the first is a subtype of the second (JVMS 4.10.1.2).
    pub fn sub_type(&self, a: u32, b: u32) -> bool
        requires first { a < length (types_of (typed_of self.now)) }
        requires second { b < length (types_of (typed_of self.now)) }
        ensures { result ≡ is_subtype_at (typed_of self.now) a b }
    {
        self.types.sub_type(a, b)
    }

    /// The class String.
    pub fn string(&self) -> u32
        ensures { Some result ≡ string_at (typed_of self.now) }
    {
        match self.types.string() {
            Some(class) => class,
            None => unreachable!(),
        }
    }

    /// The arrays of chars.
    pub fn chars(&self) -> u32
        ensures { Some result ≡ chars_at (typed_of self.now) }
    {
        match self.types.chars() {
            Some(class) => class,
            None => unreachable!(),
        }
    }

    /// The class of the object that stops a run, where it is there.
    pub fn stop(&self) -> Option<u32>
        ensures { result ≡ stop_at (typed_of self.now) }
    {
        self.types.stop()
    }

    /// The class of an exception of an instruction's own, where it is there.
    pub fn raised(&self, raised: Raised) -> Option<u32>
        ensures { result ≡ raised_at (typed_of self.now) raised }
    {
        self.types.raised(raised)
    }

    /// The number of instance fields of a class, inherited ones included; 0 for an array.
    pub fn field_count(&self, class: u32) -> u32
        requires { class < length (types_of (typed_of self.now)) }
        ensures { result ≡ field_count_at (typed_of self.now) class }
    {
        self.types.field_count(class)
    }

    /// The method at a place among those that a class declares, or none past the last.
    pub fn method_at(&self, class: u32, at: u32) -> Option<MethodId>
        requires { class < length (types_of (typed_of self.now)) }
        ensures { IsNthMethod (typed_of self.now) class at (option_map number_of_method result) }
    {
        self.types.method_at(class, at)
    }

    /// The field at a place among those that a class declares, or none past the last.
    pub fn field_at(&self, class: u32, at: u32) -> Option<FieldId>
        requires { class < length (types_of (typed_of self.now)) }
        ensures { IsNthField (typed_of self.now) class at (option_map number_of_field result) }
    {
        self.types.field_at(class, at)
    }

    /// The method of a number.
    pub fn method(&self, method: MethodId) -> MemberOf<'_>
        requires { method.number < length (all_methods (program_of self.now)) }
        ensures { IsMethodThere (typed_of self.now) method.number result }
    {
        self.types.method(method)
    }

    /// The field of a number.
    pub fn field(&self, field: FieldId) -> MemberOf<'_>
        requires { field.number < length (all_fields (program_of self.now)) }
        ensures { IsFieldThere (typed_of self.now) field.number result }
    {
        self.types.field(field)
    }

    /// The place of an instance field among those of an object.
    pub fn place(&self, field: FieldId) -> u32
        requires { field.number < length (all_fields (program_of self.now)) }
        ensures { Some result ≡ option_map (place_of (program_of self.now)) (slice_get (all_fields (program_of self.now)) field.number) }
    {
        self.types.place(field)
    }

    /// The method to which a name and a descriptor resolve in a class or an array (JVMS 5.4.3.3 and 5.4.3.4).
    pub fn resolve_method(&self, class: u32, name: &[u8], desc: &[u8]) -> Option<MethodId>
        requires { class < length (types_of (typed_of self.now)) }
        ensures found { IsDescriptor desc.now → option_map number_of_method result ≡ found_method_number (program_of self.now) (resolved_method (typed_of self.now) class name.now desc.now) }
        ensures none { (IsDescriptor desc.now → ⊥) → result ≡ None }
    {
        self.types.resolve_method(class, name, desc)
    }

    /// The field to which a name and a descriptor resolve in a class or an array (JVMS 5.4.3.2).
    pub fn resolve_field(&self, class: u32, name: &[u8], desc: &[u8]) -> Option<FieldId>
        requires { class < length (types_of (typed_of self.now)) }
        ensures found { IsDescriptor desc.now → option_map number_of_field result ≡ found_field_number (program_of self.now) (resolved_field (typed_of self.now) class name.now desc.now) }
        ensures none { (IsDescriptor desc.now → ⊥) → result ≡ None }
    {
        self.types.resolve_field(class, name, desc)
    }

    /// The method that is taken where a method is called on an object of a class or an array (JVMS 6.5, invokevirtual and invokeinterface).
    pub fn select(&self, method: MethodId, class: u32) -> Option<MethodId>
        requires there { method.number < length (all_methods (program_of self.now)) }
        requires class { class < length (types_of (typed_of self.now)) }
        ensures { option_map number_of_method result ≡ found_method_number (program_of self.now) (selected (typed_of self.now) method.number class) }
    {
        self.types.select(method, class)
    }

    /// The method that `invokespecial` takes in a class for the one to which its operand resolves (JVMS 6.5).
    pub fn special(&self, method: MethodId, class: u32) -> Option<MethodId>
        requires there { method.number < length (all_methods (program_of self.now)) }
        requires class { class < length (program_of self.now) }
        ensures { option_map number_of_method result ≡ found_method_number (program_of self.now) (special_of (typed_of self.now) method.number class) }
    {
        self.types.special(method, class)
    }

    /// The body of a method.
    pub fn body(&self, method: MethodId) -> Body<'_>
        requires { method.number < length (all_methods (program_of self.now)) }
        ensures { IsBodyAt self.now method.number result }
    {
        let place = self.types.place_of_method(method);
        match self.types.native_of(method) {
            Some(native) => Body::Native(native),
            None => match code_at(&self.parts, place) {
                Some(code) => Body::Code(code),
                None => Body::Abstract,
            },
        }
    }

    /// What the operand of an instruction is; of one that makes an array the class of the array.
    pub fn operand(&self, method: MethodId, number: u32) -> Operand
        requires { HasInstr self.now method.number number }
        ensures { IsOperandAt self.now method.number number result }
    {
        let place = self.types.place_of_method(method);
        match operand_there(
            &self.types,
            &self.parts,
            &self.operands,
            &self.made,
            place,
            number,
        ) {
            Some(operand) => operand,
            None => unreachable!(),
        }
    }

    /// The class that the constant of an instruction names, whatever its tag is.
    pub fn named(&self, method: MethodId, number: u32) -> Option<u32>
        requires { HasInstr self.now method.number number }
        ensures { IsNamedAt self.now method.number number result }
    {
        let place = self.types.place_of_method(method);
        match instr_at(&self.parts, place, number) {
            Some(instr) => named_kept(&self.named, place.class, index_of(instr)),
            None => unreachable!(),
        }
    }

    /// The class or the array that a row of the exception table catches. None where it catches everything, which its `catch_type` of 0 shows,
    /// and where its constant names an absent class or an array without a number, or is no class, as an int.
    pub fn catch_class(&self, method: MethodId, range: u32) -> Option<u32>
        requires { HasRange self.now method.number range }
        ensures { IsCaughtAt self.now method.number range result }
    {
        let place = self.types.place_of_method(method);
        match range_at(&self.parts, place, range) {
            Some(row) => caught_kept(&self.named, place.class, row.catch_type),
            None => unreachable!(),
        }
    }

    /// The constant that its file has for a field, with which a static field begins. An instance field's constant is answered too, though no object
    /// begins with it (JVMS 4.7.2).
    pub fn constant(&self, field: FieldId) -> Operand
        requires { field.number < length (all_fields (program_of self.now)) }
        ensures { IsConstantAt self.now field.number result }
    {
        let place = self.types.place_of_field(field);
        match constant_at(&self.constants, place) {
            Some(operand) => operand,
            None => unreachable!(),
        }
    }

    /// How many texts there are.
    pub fn text_count(&self) -> u32
        ensures { result ≡ length self.now.texts }
    {
        self.texts.len() as u32
    }

    /// The units of a text.
    pub fn text(&self, text: u32) -> &[u16]
        requires { text < length self.now.texts }
        ensures { slice_get self.now.texts text ≡ Some result.now }
    {
        self.texts[text as usize].as_slice()
    }
}
