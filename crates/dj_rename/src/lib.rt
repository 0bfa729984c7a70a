//! Class files' texts with `sandbox/` before each class's name, and pools of them.
#![tactic(auto)]

mod accounter;
mod error;
mod known;
mod laws;
mod renamed;
mod rewritten;
mod sought;
mod spelled;
mod text;
mod texts;
mod walk;
mod wanted;

pub use accounter::append_accounter;
pub use error::RenameError;
pub use laws::{classes_in_sandbox, descs_in_sandbox, plain_undoes, texts_are_judged};
pub use renamed::{Renamed, rename_pool};
pub use rewritten::{Rewritten, rewrite_pool};
pub use text::{plain_name, rename_desc, rename_name};
pub use texts::Texts;
pub use walk::rename_texts;
