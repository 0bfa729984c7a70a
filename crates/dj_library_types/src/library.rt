use crate::lists::{LibMethods, Names};
use dj_names::{Desc, Name, NativeId};

/// A method of a library. An abstract one has no native.
#[derive(Drop)]
pub struct LibMethod {
    /// The access flags (JVMS table 4.6-A).
    pub flags: u16,
    /// The name without its class.
    pub name: Name,
    /// The parameters and the result.
    pub desc: Desc,
    /// What answers a call.
    pub native: Option<NativeId>,
}

/// A class of a library.
#[derive(Drop)]
pub struct LibClass {
    /// The whole name, with slashes.
    pub name: Name,
    /// The superclass; only Object has none.
    pub super_name: Option<Name>,
    /// The access flags (JVMS table 4.1-A).
    pub flags: u16,
    /// The direct superinterfaces.
    pub interfaces: Names,
    /// The number of instance fields, which no name reaches.
    pub fields: u16,
    /// The methods, in order.
    pub methods: LibMethods,
}
