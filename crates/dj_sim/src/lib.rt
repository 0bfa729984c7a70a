//! The metered run of a program, and the plain run of the rewritten program: each turn of the one is so many steps of the other.
#![tactic(auto)]

mod laws;

pub use laws::{
    act, begins, counting, initialises, limited_ends, limits, metering_theorem, objects, pays,
    sound_act, sound_pays, stops, waiting_paid,
};
