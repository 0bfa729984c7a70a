ghost use Rattle.std.specs.Prelude.{◌≡◌, [], ◌∷◌, ◌++◌, OnOk, OnErr};

use crate::library::{LibClass, LibMethod};
use dj_names::Name;
use std::alloc::{AllocError, Global};
use std::marker::Model;

/// Names, in order.
#[derive(Drop)]
pub struct Names {
    names: Vec<Name>,
}

impl Model for Names {
    ghost use Rattle.std.specs.Prelude.{ℕ, List};

    ghost Value = { List (List ℕ) };

    ghost view = { λ names. names.names.items };
}

impl Names {
    /// No names.
    pub fn new(alloc: Global) -> Names
        ensures { result ≡ [] }
    {
        Names {
            names: Vec::new(alloc),
        }
    }

    /// Appends a name.
    pub fn push(&mut self, item: Name) -> Result<(), AllocError>
        ensures ok { OnOk result (self.new ≡ self.old ++ item ∷ []) }
        ensures err { OnErr result (self.new ≡ self.old) }
    {
        Ok(self.names.push(item)?)
    }

    /// The names, borrowed.
    pub fn as_slice(&self) -> &[Name]
        ensures { result.now ≡ self.now }
    {
        self.names.as_slice()
    }
}

/// The methods of a class of a library, in order.
#[derive(Drop)]
pub struct LibMethods {
    methods: Vec<LibMethod>,
}

impl Model for LibMethods {
    ghost use Rattle.std.specs.Prelude.{List};
    ghost use Rattle.dj_library_types.specs.declared.library.LibMethod.{LibMethod};

    ghost Value = { List LibMethod };

    ghost view = { λ methods. methods.methods.items };
}

impl LibMethods {
    /// No methods.
    pub fn new(alloc: Global) -> LibMethods
        ensures { result ≡ [] }
    {
        LibMethods {
            methods: Vec::new(alloc),
        }
    }

    /// Appends a method.
    pub fn push(&mut self, item: LibMethod) -> Result<(), AllocError>
        ensures ok { OnOk result (self.new ≡ self.old ++ item ∷ []) }
        ensures err { OnErr result (self.new ≡ self.old) }
    {
        Ok(self.methods.push(item)?)
    }

    /// The methods, borrowed.
    pub fn as_slice(&self) -> &[LibMethod]
        ensures { result.now ≡ self.now }
    {
        self.methods.as_slice()
    }
}

/// The classes of a library, in order.
#[derive(Drop)]
pub struct Library {
    classes: Vec<LibClass>,
}

impl Model for Library {
    ghost use Rattle.std.specs.Prelude.{List};
    ghost use Rattle.dj_library_types.specs.declared.library.LibClass.{LibClass};

    ghost Value = { List LibClass };

    ghost view = { λ library. library.classes.items };
}

impl Library {
    /// No classes.
    pub fn new(alloc: Global) -> Library
        ensures { result ≡ [] }
    {
        Library {
            classes: Vec::new(alloc),
        }
    }

    /// Appends a class.
    pub fn push(&mut self, item: LibClass) -> Result<(), AllocError>
        ensures ok { OnOk result (self.new ≡ self.old ++ item ∷ []) }
        ensures err { OnErr result (self.new ≡ self.old) }
    {
        Ok(self.classes.push(item)?)
    }

    /// The classes, borrowed.
    pub fn as_slice(&self) -> &[LibClass]
        ensures { result.now ≡ self.now }
    {
        self.classes.as_slice()
    }
}
