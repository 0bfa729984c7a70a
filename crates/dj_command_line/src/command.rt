//! Commands.

ghost use Rattle.std.specs.Prelude.{◌≡◌, [], None, IfOk, map, string_bytes, option_map, option_and_then, if◌then◌else◌};
ghost use Rattle.clap.specs.Words.{found_of, rows_of};
ghost use Rattle.dj_command_line.specs.trusted.Words.{without_slash, check_job, assemble_job};
ghost use Rattle.dj_command_line.specs.trusted.DoneJobs.{done, done_job_of};
ghost use Rattle.dj_command_line.specs.WordsApp.{has_no_value, thresholds_in, steps_in, verify_in, raw_in, job_of_values, job_in};
ghost use Rattle.dj_command_line.specs.Views.{job_view, texts, values_view};

use crate::line::read_line;
use crate::options::Options;
use clap::ArgMatches;
use dj_names::Thresholds;
use std::alloc::{AllocError, Global};

/// What is done with the class files of a folder.
#[derive(Clone, Copy)]
pub enum FolderCommand<'a> {
    /// Check the class files of the folder.
    Check {
        folder: &'a str,
    },
    /// Check the class files of the folder, and run the class of this name on the bytes of the file of this path, within these thresholds.
    Verify {
        folder: &'a str,
        entry: &'a str,
        input: &'a str,
        thresholds: Thresholds,
    },
    /// Check the class files of the folder, and run the class of this name on the bytes of the file of this path, for at most this many steps,
    /// with the raw library.
    Raw {
        folder: &'a str,
        entry: &'a str,
        input: &'a str,
        steps: u64,
    },
}

/// What the words of a command line ask for.
#[derive(Clone, Copy)]
pub enum Command<'a> {
    /// A job on the class files of a folder.
    OnFolder(FolderCommand<'a>),
    /// Make the class file that the text in this file means.
    Assemble { file: &'a str },
}

/// The folder without one slash at its end.
fn without_slash(folder: &str) -> &str
    ensures { result.now ≡ without_slash folder.now }
{
    if folder.as_bytes().ends_with(b"/") {
        &folder[..folder.len() - 1]
    } else {
        folder
    }
}

fn check_command<'a>(operands: &[&'a str], options: Options<'a>) -> Option<Command<'a>>
    ensures { option_map job_view result ≡ option_and_then done (if has_no_value (values_view options.entry) then check_job (texts operands.now) [] else None) }
{
    match operands {
        [folder] if options.are_none() => Some(Command::OnFolder(FolderCommand::Check {
            folder: without_slash(folder),
        })),
        _ => None,
    }
}

fn verify_command<'a>(operands: &[&'a str], options: Options<'a>) -> Option<Command<'a>>
    ensures { option_map job_view result ≡ option_and_then done (verify_in (texts operands.now) (thresholds_in (values_view options.entry))) }
{
    match operands {
        [folder, entry, input] => Some(Command::OnFolder(FolderCommand::Verify {
            folder: without_slash(folder),
            entry,
            input,
            thresholds: options.thresholds()?,
        })),
        _ => None,
    }
}

fn raw_command<'a>(operands: &[&'a str], options: Options<'a>) -> Option<Command<'a>>
    ensures { option_map job_view result ≡ option_and_then done (raw_in (texts operands.now) (steps_in (values_view options.entry))) }
{
    match operands {
        [folder, entry, input] => Some(Command::OnFolder(FolderCommand::Raw {
            folder: without_slash(folder),
            entry,
            input,
            steps: options.most_steps()?,
        })),
        _ => None,
    }
}

fn assemble_command<'a>(operands: &[&'a str], options: Options<'a>) -> Option<Command<'a>>
    ensures { option_map job_view result ≡ option_and_then done (if has_no_value (values_view options.entry) then assemble_job (texts operands.now) [] else None) }
{
    match operands {
        [file] if options.are_none() => Some(Command::Assemble { file }),
        _ => None,
    }
}

/// The command of this name, with these plain words and options.
fn command_named<'a>(name: &str, operands: &[&'a str], options: Options<'a>) -> Option<Command<'a>>
    ensures { option_map job_view result ≡ option_and_then done (job_of_values name.now (texts operands.now) (values_view options.entry)) }
{
    if name == "check" {
        check_command(operands, options)
    } else if name == "verify" {
        verify_command(operands, options)
    } else if name == "raw" {
        raw_command(operands, options)
    } else if name == "assemble" {
        assemble_command(operands, options)
    } else {
        None
    }
}

/// The command that the matches mean.
fn command_in<'a>(matches: &ArgMatches<'a>) -> Option<Command<'a>>
    ensures { option_map job_view result ≡ option_and_then done (job_in (rows_of (found_of matches.now))) }
{
    let name = matches.get_str("command")?;
    let options = Options::of(matches);
    match matches.get_raw("words") {
        Some(operands) => command_named(name, operands, options),
        None => command_named(name, &[], options),
    }
}

/// The command that the words of a command line ask for, without the program's name; none where they ask for none that djvm does.
pub fn command_of<'a>(alloc: Global, words: &'a [String]) -> Result<Option<Command<'a>>, AllocError>
    ensures some { IfOk result (λ command. option_map job_view command ≡ done_job_of (map string_bytes words.entry.now)) }
{
    match read_line(alloc, words)? {
        Some(matches) => Ok(command_in(&matches)),
        None => Ok(None),
    }
}
