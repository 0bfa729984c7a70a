//! The model of a run: the program, the state of the machine, its steps, what they are charged, and the shape of code.
#![tactic(auto)]

mod laws;

pub use laws::{
    answers_have_kinds, costs_stay_within, effect_commutes_with_names, effect_reads_no_code,
    few_frames, heaps_grow, initialised_once, keeps_kinds, libraries_are_sound, one_end,
    pays_first, runs_commute_with_names, runs_stay_sound, sandbox_has_names, shape_is_judged,
    step_commutes_with_names, steps_are_made, worked_runs,
};
