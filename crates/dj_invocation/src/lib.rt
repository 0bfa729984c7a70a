//! Calls of methods over an image (JVMS 6.5, the invoke instructions): what runs, on which arguments, and how the run goes on.
#![tactic(auto)]

mod answers;
mod arguments;
mod choosing;
mod entering;
mod invoking;
mod natives;
mod operands;
mod signatures;
mod site;

pub use answers::Invoked;
pub use choosing::{Chosen, Mode, choose};
pub use entering::{Room, enter};
pub use invoking::invoke;
pub use natives::{Natives, NativesError};
pub use operands::{copy_operands, drop_operands, fit, receiver};
pub use signatures::parameters;
pub use site::{CallSite, call_at, is_call};
