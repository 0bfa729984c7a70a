//! The rule 19 over an image.
#![tactic(auto)]

mod lines;
mod paths;
mod shaped;

pub use dj_shape_rule::ShapeError;
pub use paths::{class_path, joined};
pub use shaped::shape;
