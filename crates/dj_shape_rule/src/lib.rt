//! The rule SHAPE: the kinds of the local variables and of the operands at each place of a method's code (JVMS 4.10.1).
#![tactic(auto)]

mod apply;
mod arena;
mod effect;
mod error;
mod flows;
mod frames;
mod handlers;
mod instrs;
mod judge;
mod kinds;
mod listing;
mod moves;
mod numbered;
mod pass;
mod pool;
mod reading;
mod state;

pub use dj_program::MethodCode;
pub use error::ShapeError;
pub use judge::{ShapeFault, shape};
pub use pool::{CallKinds, ConstantKind, PoolKinds, pool_kinds};
