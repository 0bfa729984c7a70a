ghost use Rattle.std.specs.Prelude.{None, []};

use crate::assembling::report_of_text;
use crate::load::{list_paths, read_files, read_job_input};
use dj_command_line::FolderCommand;
use dj_edge::{Files, ListError, ReadError};
use dj_names::Thresholds;
use std::alloc::Global;
use std::test::Fail;

// A store that only keeps the limits of its calls.
#[derive(Drop)]
struct Limits(Vec<u64>);

impl Files for Limits {
    ghost held = { λ _. None };

    ghost faults = { λ _. 0 };

    ghost asked = { λ _. [] };

    fn list(&mut self, _alloc: Global, _folder: &str, most: u32) -> Result<Vec<String>, ListError> {
        let _ = self.0.push(u64::from(most));
        Err(ListError::Memory)
    }

    fn read(&mut self, _alloc: Global, _path: &str, most: u64) -> Result<Vec<u8>, ReadError> {
        let _ = self.0.push(most);
        Err(ReadError::Memory)
    }
}

const VERIFY: FolderCommand<'static> = FolderCommand::Verify {
    folder: "f",
    entry: "A",
    input: "input",
    thresholds: Thresholds {
        alloc: 0,
        invoke: 0,
        jump: 0,
        throw: 0,
    },
};

// The limits of the calls are one path more than a job may have, and the most bytes of an input, of a class file and of a text.
#[test]
fn limits_asked(rt: HostRuntime) -> Result<(), Fail> {
    let alloc = rt.alloc();
    let mut store = Limits(Vec::new(alloc));
    let paths = vec![in alloc; String::from_str(alloc, "f/A.class")?]?;
    let _ = list_paths(alloc, &mut store, "f");
    let _ = read_job_input(alloc, &mut store, VERIFY);
    let _ = read_files(alloc, &mut store, &paths);
    let _ = report_of_text(alloc, "text", &mut store);
    assert_eq!(rt;
        store.0.as_slice(),
        [4_097, 1_048_576, 4_194_304, 4_194_304].as_slice()
    );
    Ok(())
}
