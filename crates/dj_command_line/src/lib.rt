//! What the words of a command line ask for.
#![tactic(auto)]

mod command;
mod line;
mod number;
mod options;

pub use command::{Command, FolderCommand, command_of};
