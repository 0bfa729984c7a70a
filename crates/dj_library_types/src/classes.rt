ghost use Rattle.std.specs.Prelude.{◌≡◌, ℕ, ◌<◌, List, Some, IfSome, length, slice_get};
ghost use Rattle.dj_names.specs.declared.descriptor.Base.TheVariants as bases;
ghost use Rattle.dj_names.specs.declared.descriptor.Ty.{Ty};
ghost use Rattle.dj_names.specs.trusted.Types.{class_type, base_array};
ghost use Rattle.dj_model.specs.trusted.Types.{Prefix, string_name};
ghost use Rattle.dj_model.specs.trusted.Program.{Program};
ghost use Rattle.dj_model.specs.trusted.Linking.{is_subtype};
ghost use Rattle.dj_model.specs.trusted.Natives.{class_name};

/// The classes and arrays of a program, by numbers.
pub trait Classes {
    ghost use Rattle.dj_library_types.specs.Numbered.{type_at, IsNumberOf, superclass_type, component_of, SaysStop, ArePlain, HaveComponents};

    /// The class or the array of each number.
    ghost types: { Self → List Ty };

    /// The program whose classes they are.
    ghost program: { Self → Program };

    /// What comes before the names of the library's classes.
    ghost prefix: { Self → Prefix };

    /// The name of a class, or the descriptor of an array.
    fn name_of(&self, class: u32) -> &[u8]
        requires { class < length (types self.now) }
        ensures { result.now ≡ class_name (type_at (types self.now) class) };

    /// The superclass; none for an array and for a class without a superclass.
    fn super_of(&self, class: u32) -> Option<u32>
        requires { class < length (types self.now) }
        ensures { IsNumberOf (types self.now) (superclass_type (program self.now) (type_at (types self.now) class)) result };

    /// What the elements of an array of references are; none for a class and for an array of a base type.
    fn component(&self, class: u32) -> Option<u32>
        requires { class < length (types self.now) }
        ensures { IsNumberOf (types self.now) (component_of (type_at (types self.now) class)) result };

    /// Whether the first is a subtype of the second (JVMS 4.10.1.2).
    fn sub_type(&self, a: u32, b: u32) -> bool
        requires first { a < length (types self.now) }
        requires second { b < length (types self.now) }
        ensures { result ≡ is_subtype (program self.now) (prefix self.now) (type_at (types self.now) a) (type_at (types self.now) b) };

    /// The class String.
    fn string(&self) -> u32
        ensures { slice_get (types self.now) result ≡ Some (class_type (string_name (prefix self.now))) };

    /// The arrays of chars.
    fn chars(&self) -> u32
        ensures { slice_get (types self.now) result ≡ Some (base_array bases.Char) };

    /// The class of the object that stops a run, where it is there.
    fn stop(&self) -> Option<u32>
        ensures there { IfSome result (λ class. class < length (types self.now)) }
        ensures alone { SaysStop (types self.now) (prefix self.now) result };

    /// A law: no class has a name that begins as the descriptor of an array does.
    fn are_plain(&self)
        ensures { ArePlain (types self.now) };

    /// A law: what the elements of an array of references are has a number.
    fn have_components(&self)
        ensures { HaveComponents (types self.now) };
}
