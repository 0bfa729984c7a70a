//! Rewriting keeps programs sound: what the rewritten program of a sound program is.
#![tactic(auto)]

mod laws;

pub use laws::rewritten_is_sound;
