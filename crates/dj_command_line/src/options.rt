//! The options of a command line.

ghost use Rattle.std.specs.Prelude.{◌≡◌};
ghost use Rattle.clap.specs.Words.{found_of, rows_of};
ghost use Rattle.dj_command_line.specs.WordsApp.{values_of, has_no_threshold, has_no_value, thresholds_in, steps_in};
ghost use Rattle.dj_command_line.specs.Views.{values_view};

use crate::number::number_or;
use clap::ArgMatches;
use dj_names::Thresholds;

/// The values of the options that are given.
#[derive(Clone, Copy)]
pub struct Options<'a> {
    pub alloc: Option<&'a str>,
    pub invoke: Option<&'a str>,
    pub jump: Option<&'a str>,
    pub throw: Option<&'a str>,
    pub steps: Option<&'a str>,
}

const MOST: u64 = 1_073_741_824;

const MOST_THROWN: u64 = 1_048_576;

const ALLOC: u64 = 67_108_864;

const OTHERS: u64 = 1_000_000;

const MOST_STEPS: u64 = 100_000_000;

const STEPS: u64 = 10_000_000;

impl<'a> Options<'a> {
    /// The options among the matches.
    pub fn of(matches: &ArgMatches<'a>) -> Options<'a>
        ensures { values_view result ≡ values_of (rows_of (found_of matches.now)) }
    {
        Options {
            alloc: matches.get_str("alloc"),
            invoke: matches.get_str("invoke"),
            jump: matches.get_str("jump"),
            throw: matches.get_str("throw"),
            steps: matches.get_str("steps"),
        }
    }

    /// Whether no option is given.
    pub fn are_none(self) -> bool
        ensures { result ≡ has_no_value (values_view self.entry) }
    {
        self.alloc.is_none()
            && self.invoke.is_none()
            && self.jump.is_none()
            && self.throw.is_none()
            && self.steps.is_none()
    }

    // Whether no threshold is given.
    fn has_no_threshold(self) -> bool
        ensures { result ≡ has_no_threshold (values_view self.entry) }
    {
        self.alloc.is_none() && self.invoke.is_none() && self.jump.is_none() && self.throw.is_none()
    }

    /// The most steps of a run, where no other option is given.
    pub fn most_steps(self) -> Option<u64>
        ensures { result ≡ steps_in (values_view self.entry) }
    {
        if self.has_no_threshold() {
            number_or(self.steps, MOST_STEPS, STEPS)
        } else {
            None
        }
    }

    /// The thresholds of a run, where no other option is given.
    pub fn thresholds(self) -> Option<Thresholds>
        ensures { result ≡ thresholds_in (values_view self.entry) }
    {
        if self.steps.is_some() {
            return None;
        }
        Some(Thresholds {
            alloc: number_or(self.alloc, MOST, ALLOC)?,
            invoke: number_or(self.invoke, MOST, OTHERS)?,
            jump: number_or(self.jump, MOST, OTHERS)?,
            throw: number_or(self.throw, MOST_THROWN, OTHERS)?,
        })
    }
}
