//! The command line by `clap`.

ghost use Rattle.std.specs.Prelude.{◌≡◌, [], IfOk, MatchOption, map, string_bytes, codes, length};
ghost use Rattle.clap.specs.Words.{app_of, matches_of, fault_of, found_of, rows_of};
ghost use Rattle.std.specs.Prelude.{◌≢◌};
ghost use Rattle.clap.specs.Words.{new_app};
ghost use Rattle.dj_command_line.specs.WordsApp.{app, plain_app, app_with_option, option_rule, settings};

use clap::error::ErrorKind;
use clap::{Arg, ArgAction, ArgMatches, Command};
use std::alloc::{AllocError, Global};

fn app_with_option<'a>(
    alloc: Global,
    command: Command<'a>,
    name: &'a str,
) -> Result<Command<'a>, AllocError>
    ensures { IfOk result (λ r. app_of r ≡ app_with_option (app_of command.entry) name.entry.now) }
{
    command.arg(Arg::new(alloc, name).long(name))
}

fn settings<'a>(alloc: Global) -> Command<'a>
    ensures { app_of result ≡ settings (new_app (codes "djvm")) }
{
    Command::new(alloc, "djvm")
        .no_binary_name(true)
        .disable_help_flag(true)
        .disable_version_flag(true)
}

fn plain_words<'a>(alloc: Global) -> Result<Command<'a>, AllocError>
    ensures { IfOk result (λ r. app_of r ≡ plain_app) }
{
    let words = Arg::new(alloc, "words").action(ArgAction::Append);
    settings(alloc).arg(Arg::new(alloc, "command"))?.arg(words)
}

/// The command line.
fn command<'a>(alloc: Global) -> Result<Command<'a>, AllocError>
    ensures { IfOk result (λ r. app_of r ≡ app) }
{
    let command = plain_words(alloc)?;
    let command = app_with_option(alloc, command, "alloc")?;
    let command = app_with_option(alloc, command, "invoke")?;
    let command = app_with_option(alloc, command, "jump")?;
    let command = app_with_option(alloc, command, "throw")?;
    app_with_option(alloc, command, "steps")
}

/// The matches of the words, or none where they are refused.
pub fn read_line<'a>(
    alloc: Global,
    words: &'a [String],
) -> Result<Option<ArgMatches<'a>>, AllocError>
    ensures some { IfOk result (λ line. MatchOption line (length (fault_of app (map string_bytes words.entry.now)) ≢ 0) (λ l. (fault_of app (map string_bytes words.entry.now) ≡ []) × (rows_of (found_of l) ≡ matches_of app (map string_bytes words.entry.now)))) }
{
    match command(alloc)?.try_get_matches_from(words) {
        Ok(matches) => Ok(Some(matches)),
        Err(error) => {
            if error.kind() == ErrorKind::OutOfMemory {
                Err(AllocError)
            } else {
                Ok(None)
            }
        }
    }
}
