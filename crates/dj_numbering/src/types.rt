ghost use Rattle.std.specs.Prelude.{◌≡◌, ◌+◌, ◌^◌, ◌<◌, length, map, Some, None, IfOk, IfSome, slice_get};
ghost use Rattle.std.specs.Option.{option_map};
ghost use Rattle.dj_model.specs.trusted.Linking.{member_class, place_of};
ghost use Rattle.dj_declarations.specs.trusted.Files.{desc_in};
ghost use Rattle.dj_declarations.specs.Members.{IsDescriptor};
ghost use Rattle.dj_class_table.specs.Tables.{class_number, methods_at, fields_at, method_there, field_there};
ghost use Rattle.dj_numbering.specs.Typed.{texts_of, types_of, type_at, text_number, flags_at, super_at, interfaces_at, component_at, is_subtype_at, string_at, chars_at, stop_at, ArePlain, AreArrays};
ghost use Rattle.dj_numbering.specs.Own.{array_at, raised_at};
ghost use Rattle.dj_numbering.specs.Shapes.{IsElement, AreElements, shape_type};
ghost use Rattle.dj_numbering.specs.Named.{IsDirectoryOf, IsNumbered, IsNumberedBy, IsNamedMethod, IsNamedField};
ghost use Rattle.dj_numbering.specs.Members.{all_methods, all_fields, field_count_at, resolved_method, resolved_field, selected, special_of, found_method_number, found_field_number, IsMethodThere, IsFieldThere, IsNthMethod, IsNthField, IsMethodPlace, IsFieldPlace, native_at, number_of_method, number_of_field, methods_before, fields_before};

use crate::arrays::{Arrays, check_names, number_in, text_in};
use crate::error::TypesError;
use crate::members::{Members, count_at, is_descriptor, place_at};
use crate::named::{MemberName, field_in, method_in};
use crate::own::OwnClasses;
use crate::places::object_places;
use crate::shapes::{ElementType, Shape, is_subtype};
use dj_class_table::Place;
use dj_names::{Base, NativeId, Raised};
use dj_resolution::{CallTable, Directory, Linker, resolve_field_of, resolve_method_of};
use std::alloc::Global;
use std::marker::Model;

/// The number of a method: its place in the order of classes, and of the methods that each declares.
#[derive(Clone, Copy, Debug, PartialEq, Eq)]
pub struct MethodId {
    pub number: u32,
}

/// The number of a field: its place in the order of classes, and of the fields that each declares.
#[derive(Clone, Copy, Debug, PartialEq, Eq)]
pub struct FieldId {
    pub number: u32,
}

/// A field or a method, lent.
#[derive(Clone, Copy, Debug)]
pub struct MemberOf<'i> {
    /// The number of the class that declares it.
    pub class: u32,
    /// The access flags (JVMS tables 4.5-A and 4.6-A).
    pub flags: u16,
    pub name: &'i [u8],
    /// The text of its descriptor.
    pub desc: &'i [u8],
}

/// Classes and arrays.
#[derive(Drop)]
pub struct Types {
    linker: Linker,
    kept: Arrays,
    members: Members,
    calls: CallTable,
    own: OwnClasses,
    // By the number of a field, its place among the instance fields of an object.
    places: Vec<u32>,
}

impl Model for Types {
    ghost use Rattle.dj_numbering.specs.Typed.{Typed};

    ghost Value = { Typed };

    ghost use Rattle.dj_numbering.specs.Kept.{IsTyped, types_kept};

    ghost view = { λ types. record { program = types.linker.program; prefix = types.linker.prefix; arrays = types_kept types.linker.program types.kept } };

    ghost invariant = { λ types. IsTyped types.linker.program types.linker.prefix (types_kept types.linker.program types.kept) types.kept types.members types.calls types.own types.places.items };
}

impl Types {
    /// Numbers the arrays after the classes.
    pub fn of(alloc: Global, linker: Linker, arrays: Vec<Shape>) -> Result<Types, TypesError>
        requires arrays { AreArrays linker.program (map (shape_type linker.program) arrays.items) }
        requires elements { AreElements linker.program arrays.items }
        requires few { length linker.program + length arrays.items < 2 ^ 32 }
        requires few_methods { length (all_methods linker.program) < 2 ^ 32 }
        requires few_fields { length (all_fields linker.program) < 2 ^ 32 }
        ensures { IfOk result (λ types. types ≡ record { program = linker.program; prefix = linker.prefix; arrays = map (shape_type linker.program) arrays.items }) }
    {
        check_names(linker.classes())?;
        let kept = Arrays::of(alloc, linker.classes(), arrays)?;
        let members = Members::of(alloc, linker.classes())?;
        let calls = CallTable::of(alloc, linker.classes())?;
        let own = OwnClasses::of(&linker, &kept);
        let places = object_places(alloc, linker.classes(), &members)?;
        Ok(Types {
            linker,
            kept,
            members,
            calls,
            own,
            places,
        })
    }

    /// The classes with their look-ups.
    pub fn linker(&self) -> &Linker
        ensures { result.now ≡ record { program = self.now.program; prefix = self.now.prefix } }
    {
        &self.linker
    }

    /// A law: the arrays are of base types and of classes that are there, in the order of the bytes of their descriptors.
    pub fn are_arrays(&self)
        ensures { AreArrays self.now.program self.now.arrays }
    {
        let _ = &self.kept;
    }

    /// A law: no class has a name that begins as the descriptor of an array does.
    pub fn are_plain(&self)
        ensures { ArePlain self.now.program }
    {
        let _ = &self.kept;
    }

    /// The number of classes and arrays.
    pub fn class_count(&self) -> u32
        ensures { result ≡ length (types_of self.now) }
    {
        self.linker.classes().class_count() + self.kept.shapes.len() as u32
    }

    /// The number of the class of this name, or of the array of this descriptor.
    pub fn class_named(&self, name: &[u8]) -> Option<u32>
        ensures { result ≡ text_number self.now name.now }
    {
        number_in(
            self.linker.classes(),
            &self.kept.wholes,
            &self.kept.shapes,
            name,
        )
    }

    /// The name of a class, or the descriptor of an array.
    pub fn name_of(&self, class: u32) -> &[u8]
        requires { class < length (types_of self.now) }
        ensures { slice_get (texts_of self.now) class ≡ Some result.now }
    {
        let table = self.linker.classes();
        match class.checked_sub(table.class_count()) {
            Some(array) => text_in(&self.kept.wholes, self.kept.shapes[array as usize]),
            None => table.name_of(class),
        }
    }

    /// The access flags of a class (JVMS table 4.1-A); 0 of an array.
    pub fn flags_of(&self, class: u32) -> u16
        requires { class < length (types_of self.now) }
        ensures { result ≡ flags_at self.now class }
    {
        let table = self.linker.classes();
        if class < table.class_count() {
            table.flags_of(class)
        } else {
            0
        }
    }

    /// The superclass; none of an array and of a class without a superclass.
    pub fn super_of(&self, class: u32) -> Option<u32>
        requires { class < length (types_of self.now) }
        ensures { result ≡ super_at self.now class }
    {
        let table = self.linker.classes();
        if class < table.class_count() {
            table.super_of(class)
        } else {
            None
        }
    }

    /// The interfaces that a class lists; none of an array.
    pub fn interfaces_of(&self, class: u32) -> &[u32]
        requires { class < length (types_of self.now) }
        ensures { result.now ≡ interfaces_at self.now class }
    {
        let table = self.linker.classes();
        if class < table.class_count() {
            table.interfaces_of(class)
        } else {
            &[]
        }
    }

    /// What the elements of an array of references are; none of a class and of an array of a base type.
    pub fn component(&self, class: u32) -> Option<u32>
        requires { class < length (types_of self.now) }
        ensures { result ≡ component_at self.now class }
    {
        let array = class.checked_sub(self.linker.classes().class_count())?;
        self.kept.components[array as usize]
    }

    // The shape of a class or an array.
    fn shape_of(&self, class: u32) -> Shape
        requires { class < length (types_of self.now) }
        ensures is { shape_type self.now.program result ≡ type_at self.now class }
        ensures element { IsElement self.now.program result.of }
    {
        match class.checked_sub(self.linker.classes().class_count()) {
            Some(array) => self.kept.shapes[array as usize],
            None => Shape {
                dims: 0,
                of: ElementType::Class(class),
            },
        }
    }

    /// Whether the first is a subtype of the second (JVMS 4.10.1.2).
    pub fn sub_type(&self, a: u32, b: u32) -> bool
        requires first { a < length (types_of self.now) }
        requires second { b < length (types_of self.now) }
        ensures { result ≡ is_subtype_at self.now a b }
    {
        is_subtype(&self.linker, self.shape_of(a), self.shape_of(b))
    }

    /// The class String.
    pub fn string(&self) -> Option<u32>
        ensures { result ≡ string_at self.now }
    {
        self.own.string
    }

    /// The arrays of chars.
    pub fn chars(&self) -> Option<u32>
        ensures { result ≡ chars_at self.now }
    {
        self.own.chars
    }

    /// The arrays of a base type.
    pub fn array_of(&self, base: Base) -> Option<u32>
        ensures { result ≡ array_at self.now base }
    {
        self.own.array(base)
    }

    /// The class of the object that stops a run, where it is there.
    pub fn stop(&self) -> Option<u32>
        ensures { result ≡ stop_at self.now }
    {
        self.own.stop
    }

    /// The class of an exception of an instruction's own.
    pub fn raised(&self, raised: Raised) -> Option<u32>
        ensures { result ≡ raised_at self.now raised }
    {
        self.own.raised(raised)
    }

    // The class whose members those of a class or an array are, where it is there.
    fn member_class(&self, class: u32) -> Option<u32>
        requires { class < length (types_of self.now) }
        ensures is { result ≡ class_number self.now.program (member_class self.now.prefix (type_at self.now class)) }
        ensures there { IfSome result (λ k. k < length self.now.program) }
    {
        self.linker.classes().names_differ();
        if class < self.linker.classes().class_count() {
            Some(class)
        } else {
            self.linker.object()
        }
    }

    // The place of the method of a number.
    fn method_place(&self, method: MethodId) -> Place
        requires { method.number < length (all_methods self.now.program) }
        ensures there { result.class < length self.now.program }
        ensures within { result.member < length (methods_at self.now.program result.class) }
        ensures is { method_there self.now.program result ≡ slice_get (all_methods self.now.program) method.number }
        ensures number { method.number ≡ methods_before self.now.program result.class + result.member }
    {
        let members = &self.members;
        place_at(
            &members.method_starts,
            &members.method_classes,
            method.number,
        )
    }

    // The number of the method at a place.
    fn method_id(&self, place: Place) -> MethodId
        requires there { place.class < length self.now.program }
        requires within { place.member < length (methods_at self.now.program place.class) }
        ensures is { slice_get (all_methods self.now.program) result.number ≡ method_there self.now.program place }
        ensures number { result.number ≡ methods_before self.now.program place.class + place.member }
    {
        MethodId {
            number: self.members.method_starts[place.class as usize] + place.member,
        }
    }

    // The number of the first method of its class that has the name and the descriptor of the one at a place.
    fn first_method(&self, place: Place) -> MethodId
        requires there { place.class < length self.now.program }
        requires within { place.member < length (methods_at self.now.program place.class) }
        ensures { Some result.number ≡ found_method_number self.now.program (method_there self.now.program place) }
    {
        let table = self.linker.classes();
        table.names_differ();
        let member = self.calls.first_like(table, place.class, place.member);
        self.method_id(Place {
            class: place.class,
            member,
        })
    }

    // The number of the first method of its class that has the name and the descriptor of the one at a place, by the numbers of these.
    fn first_numbered_method(
        &self,
        directory: &Directory<'_>,
        place: Place,
        named: MemberName<'_>,
    ) -> MethodId
        requires same { directory.now.program ≡ self.now.program }
        requires there { place.class < length self.now.program }
        requires within { place.member < length (methods_at self.now.program place.class) }
        requires named { IsNumberedBy directory.now named }
        requires is { IsNamedMethod named.name.now (desc_in named.desc.now) (method_there self.now.program place) }
        ensures { Some result.number ≡ found_method_number self.now.program (method_there self.now.program place) }
    {
        self.linker.classes().names_differ();
        match method_in(directory, place.class, named) {
            Some(first) => self.method_id(Place {
                class: place.class,
                member: first,
            }),
            None => unreachable!(),
        }
    }

    // The place of the field of a number.
    fn field_place(&self, field: FieldId) -> Place
        requires { field.number < length (all_fields self.now.program) }
        ensures there { result.class < length self.now.program }
        ensures within { result.member < length (fields_at self.now.program result.class) }
        ensures is { field_there self.now.program result ≡ slice_get (all_fields self.now.program) field.number }
        ensures number { field.number ≡ fields_before self.now.program result.class + result.member }
    {
        let members = &self.members;
        place_at(&members.field_starts, &members.field_classes, field.number)
    }

    // The number of the field at a place.
    fn field_id(&self, place: Place) -> FieldId
        requires there { place.class < length self.now.program }
        requires within { place.member < length (fields_at self.now.program place.class) }
        ensures is { slice_get (all_fields self.now.program) result.number ≡ field_there self.now.program place }
        ensures number { result.number ≡ fields_before self.now.program place.class + place.member }
    {
        FieldId {
            number: self.members.field_starts[place.class as usize] + place.member,
        }
    }

    // The number of the first field of its class that has the name and the descriptor of the one at a place.
    fn first_field(&self, place: Place) -> FieldId
        requires there { place.class < length self.now.program }
        requires within { place.member < length (fields_at self.now.program place.class) }
        ensures { Some result.number ≡ found_field_number self.now.program (field_there self.now.program place) }
    {
        let Place { class, member } = place;
        let table = self.linker.classes();
        table.names_differ();
        let name = table.field_name(class, member);
        let desc = table.field_desc(class, member);
        match table.field_named(class, name, desc) {
            Some(first) => self.field_id(Place {
                class,
                member: first,
            }),
            None => unreachable!(),
        }
    }

    // The number of the first field of its class that has the name and the descriptor of the one at a place, by the numbers of these.
    fn first_numbered_field(
        &self,
        directory: &Directory<'_>,
        place: Place,
        named: MemberName<'_>,
    ) -> FieldId
        requires same { directory.now.program ≡ self.now.program }
        requires there { place.class < length self.now.program }
        requires within { place.member < length (fields_at self.now.program place.class) }
        requires named { IsNumberedBy directory.now named }
        requires is { IsNamedField named.name.now (desc_in named.desc.now) (field_there self.now.program place) }
        ensures { Some result.number ≡ found_field_number self.now.program (field_there self.now.program place) }
    {
        self.linker.classes().names_differ();
        match field_in(directory, place.class, named) {
            Some(first) => self.field_id(Place {
                class: place.class,
                member: first,
            }),
            None => unreachable!(),
        }
    }

    /// The number of instance fields of a class, inherited ones included; 0 of an array.
    pub fn field_count(&self, class: u32) -> u32
        requires { class < length (types_of self.now) }
        ensures { result ≡ field_count_at self.now class }
    {
        self.linker.classes().names_differ();
        count_at(&self.members.field_sums, class)
    }

    /// The method at a place among those that a class declares, or none past the last.
    pub fn method_at(&self, class: u32, at: u32) -> Option<MethodId>
        requires { class < length (types_of self.now) }
        ensures { IsNthMethod self.now class at (option_map number_of_method result) }
    {
        let table = self.linker.classes();
        if table.class_count() <= class || table.method_count(class) <= at as usize {
            return None;
        }
        Some(self.method_id(Place { class, member: at }))
    }

    /// The field at a place among those that a class declares, or none past the last.
    pub fn field_at(&self, class: u32, at: u32) -> Option<FieldId>
        requires { class < length (types_of self.now) }
        ensures { IsNthField self.now class at (option_map number_of_field result) }
    {
        let table = self.linker.classes();
        if table.class_count() <= class || table.field_count(class) <= at as usize {
            return None;
        }
        Some(self.field_id(Place { class, member: at }))
    }

    /// The method of a number.
    pub fn method(&self, method: MethodId) -> MemberOf<'_>
        requires { method.number < length (all_methods self.now.program) }
        ensures { IsMethodThere self.now method.number result }
    {
        let Place { class, member } = self.method_place(method);
        let table = self.linker.classes();
        MemberOf {
            class,
            flags: table.method_flags(class, member),
            name: table.method_name(class, member),
            desc: table.method_desc(class, member),
        }
    }

    /// The field of a number.
    pub fn field(&self, field: FieldId) -> MemberOf<'_>
        requires { field.number < length (all_fields self.now.program) }
        ensures { IsFieldThere self.now field.number result }
    {
        let Place { class, member } = self.field_place(field);
        let table = self.linker.classes();
        MemberOf {
            class,
            flags: table.field_flags(class, member),
            name: table.field_name(class, member),
            desc: table.field_desc(class, member),
        }
    }

    /// Where the method of a number stands: the number of its class, and its place among the methods of that class.
    pub fn place_of_method(&self, method: MethodId) -> Place
        requires { method.number < length (all_methods self.now.program) }
        ensures { IsMethodPlace self.now method.number result }
    {
        self.method_place(method)
    }

    /// Where the field of a number stands: the number of its class, and its place among the fields of that class.
    pub fn place_of_field(&self, field: FieldId) -> Place
        requires { field.number < length (all_fields self.now.program) }
        ensures { IsFieldPlace self.now field.number result }
    {
        self.field_place(field)
    }

    /// Which native method of the library the method of a number is; none of one with code, and of one with neither.
    pub fn native_of(&self, method: MethodId) -> Option<NativeId>
        requires { method.number < length (all_methods self.now.program) }
        ensures { result ≡ native_at self.now.program method.number }
    {
        let Place { class, member } = self.method_place(method);
        self.linker.classes().method_native(class, member)
    }

    /// The place of an instance field among those of an object.
    pub fn place(&self, field: FieldId) -> u32
        requires { field.number < length (all_fields self.now.program) }
        ensures { Some result ≡ option_map (place_of self.now.program) (slice_get (all_fields self.now.program) field.number) }
    {
        self.places[field.number as usize]
    }

    /// The method to which a name and a descriptor resolve in a class or an array (JVMS 5.4.3.3 and 5.4.3.4).
    pub fn resolve_method(&self, class: u32, name: &[u8], desc: &[u8]) -> Option<MethodId>
        requires { class < length (types_of self.now) }
        ensures found { IsDescriptor desc.now → option_map number_of_method result ≡ found_method_number self.now.program (resolved_method self.now class name.now desc.now) }
        ensures none { (IsDescriptor desc.now → ⊥) → result ≡ None }
    {
        if !is_descriptor(desc) {
            return None;
        }
        self.resolve_described_method(class, name, desc)
    }

    /// The same, of a descriptor.
    pub fn resolve_described_method(&self, class: u32, name: &[u8], desc: &[u8]) -> Option<MethodId>
        requires there { class < length (types_of self.now) }
        requires described { IsDescriptor desc.now }
        ensures { option_map number_of_method result ≡ found_method_number self.now.program (resolved_method self.now class name.now desc.now) }
    {
        let class = self.member_class(class)?;
        let place = self.linker.resolve_method(class, name, desc)?;
        Some(self.first_method(place))
    }

    // The method to which the name and the descriptor of these numbers resolve in a class or an array.
    fn resolve_numbered_method(
        &self,
        directory: &Directory<'_>,
        class: u32,
        named: MemberName<'_>,
    ) -> Option<MethodId>
        requires same { directory.now.program ≡ self.now.program }
        requires there { class < length (types_of self.now) }
        requires named { IsNumberedBy directory.now named }
        ensures { option_map number_of_method result ≡ found_method_number self.now.program (resolved_method self.now class named.entry.name.now named.entry.desc.now) }
    {
        let class = self.member_class(class)?;
        let place = resolve_method_of(
            &self.linker,
            directory,
            class,
            named.name_number,
            named.desc_number,
        )?;
        Some(self.first_numbered_method(directory, place, named))
    }

    /// The same, by the numbers of its name and its descriptor where there is a directory of the classes.
    pub fn resolve_named_method(
        &self,
        directory: Option<&Directory<'_>>,
        class: u32,
        named: MemberName<'_>,
    ) -> Option<MethodId>
        requires same { IsDirectoryOf self.now.program directory }
        requires there { class < length (types_of self.now) }
        requires named { IsNumbered directory named }
        ensures { option_map number_of_method result ≡ found_method_number self.now.program (resolved_method self.now class named.entry.name.now named.entry.desc.now) }
    {
        match directory {
            Some(directory) => self.resolve_numbered_method(directory, class, named),
            None => self.resolve_described_method(class, named.name, named.desc),
        }
    }

    /// The field to which a name and a descriptor resolve in a class or an array (JVMS 5.4.3.2).
    pub fn resolve_field(&self, class: u32, name: &[u8], desc: &[u8]) -> Option<FieldId>
        requires { class < length (types_of self.now) }
        ensures found { IsDescriptor desc.now → option_map number_of_field result ≡ found_field_number self.now.program (resolved_field self.now class name.now desc.now) }
        ensures none { (IsDescriptor desc.now → ⊥) → result ≡ None }
    {
        if !is_descriptor(desc) {
            return None;
        }
        self.resolve_described_field(class, name, desc)
    }

    /// The same, of a descriptor.
    pub fn resolve_described_field(&self, class: u32, name: &[u8], desc: &[u8]) -> Option<FieldId>
        requires there { class < length (types_of self.now) }
        requires described { IsDescriptor desc.now }
        ensures { option_map number_of_field result ≡ found_field_number self.now.program (resolved_field self.now class name.now desc.now) }
    {
        let class = self.member_class(class)?;
        let place = self.linker.resolve_field(class, name, desc)?;
        Some(self.first_field(place))
    }

    // The field to which the name and the descriptor of these numbers resolve in a class or an array.
    fn resolve_numbered_field(
        &self,
        directory: &Directory<'_>,
        class: u32,
        named: MemberName<'_>,
    ) -> Option<FieldId>
        requires same { directory.now.program ≡ self.now.program }
        requires there { class < length (types_of self.now) }
        requires named { IsNumberedBy directory.now named }
        ensures { option_map number_of_field result ≡ found_field_number self.now.program (resolved_field self.now class named.entry.name.now named.entry.desc.now) }
    {
        let class = self.member_class(class)?;
        let place = resolve_field_of(
            &self.linker,
            directory,
            class,
            named.name_number,
            named.desc_number,
        )?;
        Some(self.first_numbered_field(directory, place, named))
    }

    /// The same, by the numbers of its name and its descriptor where there is a directory of the classes.
    pub fn resolve_named_field(
        &self,
        directory: Option<&Directory<'_>>,
        class: u32,
        named: MemberName<'_>,
    ) -> Option<FieldId>
        requires same { IsDirectoryOf self.now.program directory }
        requires there { class < length (types_of self.now) }
        requires named { IsNumbered directory named }
        ensures { option_map number_of_field result ≡ found_field_number self.now.program (resolved_field self.now class named.entry.name.now named.entry.desc.now) }
    {
        match directory {
            Some(directory) => self.resolve_numbered_field(directory, class, named),
            None => self.resolve_described_field(class, named.name, named.desc),
        }
    }

    /// The method that is taken where a method is called on an object of a class or an array (JVMS 6.5, invokevirtual and invokeinterface).
    pub fn select(&self, method: MethodId, class: u32) -> Option<MethodId>
        requires there { method.number < length (all_methods self.now.program) }
        requires class { class < length (types_of self.now) }
        ensures { option_map number_of_method result ≡ found_method_number self.now.program (selected self.now method.number class) }
    {
        let class = self.member_class(class);
        let resolved = self.method_place(method);
        let taken = self.linker.select_by(&self.calls, resolved, class)?;
        Some(self.first_method(taken))
    }

    /// The method that `invokespecial` takes in a class for the one to which its operand resolves (JVMS 6.5).
    pub fn special(&self, method: MethodId, class: u32) -> Option<MethodId>
        requires there { method.number < length (all_methods self.now.program) }
        requires class { class < length self.now.program }
        ensures { option_map number_of_method result ≡ found_method_number self.now.program (special_of self.now method.number class) }
    {
        let resolved = self.method_place(method);
        let taken = self.linker.special_by(&self.calls, class, resolved)?;
        Some(self.first_method(taken))
    }
}
