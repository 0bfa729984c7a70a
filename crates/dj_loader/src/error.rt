ghost use Rattle.std.specs.Prelude.{◌≡◌};

use dj_class_table::TableError;
use dj_declarations::DeclareError;
use dj_graph::GraphError;
use dj_image::ImageError;
use dj_names::Name;
use dj_shape_rule::ShapeError;
use std::alloc::{AllocError, AllocFailed};
use thiserror::Error;

/// Why classes were not loaded. The name is the least one, in the order of bytes, for which the cause holds.
#[derive(Debug, Error, Drop)]
pub enum LoadError {
    /// Two classes have this name.
    #[error("two classes have one name")]
    Duplicate(Name),
    /// The superclass or an interface of the class of this name isn't there.
    #[error("a superclass or an interface is not there")]
    NoSuper(Name),
    /// The class of this name is its own ancestor.
    #[error("a class is its own ancestor")]
    Cycle(Name),
    /// There was no memory.
    #[error("out of memory")]
    Memory,
}

impl From<AllocError> for LoadError {
    ghost use Rattle.dj_loader.specs.declared.error.LoadError.TheVariants.{Memory};

    ghost from_gives = { λ _ e. e ≡ Memory };

    fn from(_error: AllocError) -> LoadError {
        LoadError::Memory
    }
}

impl<T: Drop> From<AllocFailed<T>> for LoadError {
    ghost use Rattle.dj_loader.specs.declared.error.LoadError.TheVariants.{Memory};

    ghost from_gives = { λ _ e. e ≡ Memory };

    fn from(_error: AllocFailed<T>) -> LoadError {
        LoadError::Memory
    }
}

impl From<DeclareError> for LoadError {
    ghost use Rattle.dj_loader.specs.declared.error.LoadError.TheVariants.{Memory};

    ghost from_gives = { λ _ e. e ≡ Memory };

    fn from(_error: DeclareError) -> LoadError {
        LoadError::Memory
    }
}

impl From<GraphError> for LoadError {
    ghost use Rattle.dj_loader.specs.declared.error.LoadError.TheVariants.{Memory};

    ghost from_gives = { λ _ e. e ≡ Memory };

    fn from(_error: GraphError) -> LoadError {
        LoadError::Memory
    }
}

impl From<ImageError> for LoadError {
    ghost use Rattle.dj_loader.specs.declared.error.LoadError.TheVariants.{Memory};

    ghost from_gives = { λ _ e. e ≡ Memory };

    fn from(_error: ImageError) -> LoadError {
        LoadError::Memory
    }
}

impl From<ShapeError> for LoadError {
    ghost use Rattle.dj_loader.specs.declared.error.LoadError.TheVariants.{Memory};

    ghost from_gives = { λ _ e. e ≡ Memory };

    fn from(_error: ShapeError) -> LoadError {
        LoadError::Memory
    }
}

impl From<TableError> for LoadError {
    ghost use Rattle.dj_loader.specs.Loads.{table_error};

    ghost from_gives = { λ e load. load ≡ table_error e };

    fn from(error: TableError) -> LoadError {
        match error {
            TableError::Duplicate(name) => LoadError::Duplicate(name),
            TableError::Memory => LoadError::Memory,
        }
    }
}
