//! The initialisation of classes at their first use (JVMS 5.5), over an image: which classes wait, the constants of their static fields, and the frames of their initialisers.
#![tactic(auto)]

mod bits;
mod constants;
mod filled;
mod flags;
mod initialisers;
mod places;
mod prepare;
mod pushing;
mod waiting;

pub use flags::Initialised;
pub use initialisers::{Initialiser, Initialisers};
pub use places::StaticPlaces;
pub use prepare::{Prepared, initialise};
