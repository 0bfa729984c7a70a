//! Laws: the programs of the files that `check` accepts are sound, and those of files that are judged with the raw library.
#![tactic(auto)]

mod laws;

pub use laws::{
    accepted_is_sound, are_loadable, are_raw_accepted, have_bodies, have_class_files, have_codes,
    have_constants, have_ends, have_hierarchy, have_raw_class_files, members_differ, names_rise,
    others_ask_nothing, runs_stand,
};
