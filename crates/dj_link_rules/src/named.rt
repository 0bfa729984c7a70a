/// The kind of a constant, as far as instructions distinguish it (JVMS table 4.4-B).
#[derive(Clone, Copy, Debug, PartialEq, Eq)]
pub enum Tag {
    /// An int, a float or a string, a method handle or a method's type.
    Short,
    /// A long or a double.
    Long,
    Class,
    Field,
    Method,
    InterfaceMethod,
    Dynamic,
    /// Any other constant, which no instruction takes.
    Other,
}

/// The class that a constant names.
#[derive(Clone, Copy, Debug, PartialEq, Eq)]
pub struct NamedClass {
    /// The dimensions; 0 where it is no array.
    pub dims: u8,
    /// The number of the class that is looked up: an array's is that of its elements, and Object where these are of a base type; none
    /// where there is no such class.
    pub number: Option<u32>,
    /// Whether the name of that class is in the library's packages.
    pub of_library: bool,
}

/// The field or the method that a constant names.
#[derive(Clone, Copy, Debug, PartialEq, Eq)]
pub struct NamedMember {
    /// Whether what it resolves to is static; none where it resolves to nothing.
    pub is_static: Option<bool>,
    /// Whether its name is that of constructors.
    pub is_constructor: bool,
    /// Whether its name is that of initialisers.
    pub is_initialiser: bool,
}

/// What a constant names. Each constant is looked at once, however many instructions name it.
#[derive(Clone, Copy, Debug, PartialEq, Eq)]
pub struct NamedConstant {
    pub tag: Tag,
    pub class: Option<NamedClass>,
    pub member: Option<NamedMember>,
}
