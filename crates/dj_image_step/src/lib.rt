//! A step of a run over an image: the class that an instruction uses is initialised, the instruction is done or a method called, and what follows is settled.
#![tactic(auto)]

mod acting;
mod calling;
mod checks;
mod counting;
mod frames;
mod hosting;
mod natives;
mod preparing;
mod run;
mod shortness;
mod tables;
mod turning;
mod unnamed;
mod uses;

pub use dj_image_effects::Begun;
pub use dj_settling::Settled;
pub use run::Run;
pub use tables::Tables;
pub use unnamed::{begin_turn, end_turn};
