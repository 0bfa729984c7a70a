//! What follows the effect of an instruction, over an image: throws, the exceptions of the machine's own, the object that stops a run, returns, and what
//! native methods answer.
#![tactic(auto)]

mod endings;
mod going;
mod messages;
mod native;
mod own;
mod raising;
mod returning;
mod settled;
mod stopping;
mod throwing;

pub use going::go;
pub use native::settle_native;
pub use own::has_own;
pub use raising::raise;
pub use returning::give_back;
pub use settled::Settled;
pub use stopping::throw_stop;
pub use throwing::{throw, throw_new};
