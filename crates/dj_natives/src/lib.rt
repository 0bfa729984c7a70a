//! What native methods do to the heap, and the accounter, which sums what a run is charged.
#![tactic(auto)]

mod absent;
mod accounter;
mod amount;
mod amounts;
mod answer;
mod arguments;
mod arrays;
mod builders;
mod call;
mod makers;
mod names;
mod numbers;
mod objects;
mod perform;
mod seen;
mod sums;
mod texts;
mod throwables;

pub use absent::takes_absent;
pub use accounter::{Accounter, Charged};
pub use answer::NativeAnswer;
pub use arguments::reference;
pub use call::call_native;
pub use dj_library_types::{Classes, LibClass, LibMethod, LibMethods, Library, Names};
pub use objects::make_object_text;
