//! djvm: a deterministic sandbox for Java class files.
#![tactic(auto)]

#[cfg(test)]
mod adapters;
mod assembling;
mod clock_host;
mod cut;
mod djvm;
mod laws;
mod load;
mod notes;
mod out_sink;
mod system;
#[cfg(test)]
mod tests;
#[cfg(test)]
mod texts;
mod version;

use clock_host::ClockHost;
use dj_edge::FolderFiles;
use dj_sandbox::PlainEngine;
use notes::Notes;
use out_sink::OutSink;
use std::alloc::AllocError;
use std::env;
use std::io::ErrorKind;
use std::process::ExitCode;
use std::rc::Rc;
use std::rt::{Clock, Env, Files};
use system::SystemFiles;

/// The words of the command line without the program's name, or none where one of them is not UTF-8.
fn words_of<R: Env + AllocGlobal>(rt: &R) -> Result<Vec<String>, AllocError> {
    let mut words = Vec::new(rt.alloc());
    match env::args(rt) {
        Ok(args) => {
            for word in args.skip(1) {
                words.push(word)?;
            }
            Ok(words)
        }
        Err(error) if error.kind() == ErrorKind::OutOfMemory => Err(AllocError),
        Err(_) => Ok(words),
    }
}

/// Whether a FOLDER without a name is the root. One slash at its end was dropped, so it was `/` or the empty word; no word of a command before it is either of them.
fn means_root(words: &[String]) -> bool {
    for word in words {
        match word.as_str() {
            "/" => return true,
            "" => return false,
            _ => {}
        }
    }
    false
}

/// Does the job of the command line and answers the status.
fn run<R: Print + Eprint + Files + Env + Clock + AllocGlobal + Clone + Drop>(
    rt: R,
    notes: &Rc<Notes<R>>,
) -> Result<u8, AllocError> {
    let alloc = rt.alloc();
    let words = words_of(&rt)?;
    let system = SystemFiles::new(rt.clone()?, notes.clone()?, means_root(&words));
    let mut files = FolderFiles::new(alloc, system);
    let mut host = ClockHost::new(rt.clone()?);
    let mut sink = OutSink::new(rt, notes.clone()?);
    let mut engine = PlainEngine::new(alloc);
    let status = djvm::djvm(alloc, &words, &mut files, &mut host, &mut sink, &mut engine);
    Ok(status)
}

fn main(rt: HostRuntime) -> ExitCode {
    let alloc = rt.alloc();
    let status = match Rc::new(alloc, Notes::new(alloc, rt)) {
        Ok(notes) => {
            let status = run(rt, &notes).unwrap_or(67);
            notes.end(status);
            status
        }
        Err(failed) => {
            failed.value.end(67);
            67
        }
    };
    ExitCode::from(status)
}
