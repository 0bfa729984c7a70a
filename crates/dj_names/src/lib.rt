//! Names, descriptors and texts of class files (JVMS 4.2 to 4.4), and the values, objects, costs and outcomes of a run.
#![tactic(auto)]

mod descriptor;
mod lists;
mod measure;
mod name;
mod native;
mod read;
mod run;
mod text;
mod unit;
mod walk;

pub use descriptor::{Base, Desc, Kind, Of, Ty, Tys};
pub use lists::{Bytes, Name, Units};
pub use measure::{kind_of, slots};
pub use name::{is_class_name, is_method_name, is_unqualified_name};
pub use native::NativeId;
pub use read::{DescError, one_descriptor, read_desc};
pub use run::{Charge, Costs, Element, Message, Outcome, Raised, Thresholds, Value};
pub use text::{TextError, is_modified_utf8, one_spelling, units_of};
pub use walk::{is_array_descriptor, is_field_descriptor, is_method_descriptor};
