use dj_edge::{
    Files, Host, HostError, ListError, MemFiles, MemHost, MemSink, Order, ReadError, SinkError,
    paths_differ, put_all,
};
use std::alloc::{AllocError, Global};

const PATHS: [&str; 5] = [
    "lib/B.class",
    "lib/notes.txt",
    "lib/a/A.class",
    "library/C.class",
    "lib.class",
];

// Each path, with its own bytes under it.
fn stored(alloc: Global, paths: &[&str]) -> Result<Vec<(String, Vec<u8>)>, AllocError> {
    let mut files = Vec::new(alloc);
    for path in paths {
        files.push((
            String::from_str(alloc, path)?,
            Vec::from_slice(alloc, path.as_bytes())?,
        ))?;
    }
    Ok(files)
}

// A store of the paths, of which these calls fail, and none where a path stands twice.
fn store(alloc: Global, order: Order, failing: &[u64]) -> Result<Option<MemFiles>, AllocError> {
    let held = stored(alloc, &PATHS)?;
    if !paths_differ(&held) {
        return Ok(None);
    }
    let failing = Vec::from_slice(alloc, failing)?;
    Ok(Some(MemFiles::new(alloc, held, order, failing)))
}

// The order, how many paths are wanted at most, and those that are listed below lib.
const LISTS: [(Order, u32, &[&str]); 5] = [
    (Order::Given, 9, &["lib/B.class", "lib/a/A.class"]),
    (Order::Reversed, 9, &["lib/a/A.class", "lib/B.class"]),
    (Order::Given, 1, &["lib/B.class"]),
    (Order::Reversed, 1, &["lib/a/A.class"]),
    (Order::Given, 0, &[]),
];

fn are(paths: &[String], wanted: &[&str]) -> bool {
    paths
        .iter()
        .map(|path| path.as_str())
        .eq(wanted.iter().copied())
}

fn lists(alloc: Global, order: Order, most: u32, wanted: &[&str]) -> bool {
    let Ok(Some(mut files)) = store(alloc, order, &[]) else {
        return false;
    };
    match files.list(alloc, "lib", most) {
        Ok(paths) => are(&paths, wanted),
        Err(_) => false,
    }
}

#[test]
fn lists_class_files(rt: HostRuntime) {
    for (order, most, wanted) in &LISTS {
        assert!(rt; lists(rt.alloc(), *order, *most, wanted));
    }
}

const NOTES: &str = "lib/notes.txt";

fn is_notes(alloc: Global, files: &mut MemFiles) -> bool {
    match files.read(alloc, NOTES, 13) {
        Ok(bytes) => bytes.as_slice() == NOTES.as_bytes(),
        Err(_) => false,
    }
}

fn refusal(alloc: Global, files: &mut MemFiles, path: &str, most: u64) -> Option<ReadError> {
    files.read(alloc, path, most).err()
}

// The second and the third call fail.
fn reads_and_refuses(alloc: Global) -> bool {
    let Ok(Some(mut files)) = store(alloc, Order::Given, &[1, 2]) else {
        return false;
    };
    is_notes(alloc, &mut files)
        && files.list(alloc, "lib", 9).err() == Some(ListError::Failed)
        && refusal(alloc, &mut files, NOTES, 13) == Some(ReadError::Failed)
        && refusal(alloc, &mut files, "lib/notes", 13) == Some(ReadError::Absent)
        && refusal(alloc, &mut files, NOTES, 12) == Some(ReadError::TooLong)
}

#[test]
fn reads_and_fails(rt: HostRuntime) {
    assert!(rt; reads_and_refuses(rt.alloc()));
}

#[test]
fn paths_stand_once(rt: HostRuntime) {
    let twice = stored(rt.alloc(), &[NOTES, "lib.class", NOTES]);
    assert!(rt; matches!(&twice, Ok(held) if !paths_differ(held)));
}

// A sink that takes two bytes at a write and seven in all.
fn puts(alloc: Global) -> bool {
    let mut sink = MemSink::new(alloc, 2, 7);
    put_all(&mut sink, b"abc").is_ok()
        && put_all(&mut sink, b"").is_ok()
        && sink.bytes() == b"abc".as_slice()
        && put_all(&mut sink, b"defgh") == Err(SinkError::Failed)
        && sink.bytes() == b"abcdefg".as_slice()
}

#[test]
fn puts_all_or_a_prefix(rt: HostRuntime) {
    assert!(rt; puts(rt.alloc()));
}

fn goes_up(alloc: Global) -> Result<bool, HostError> {
    let mut host = MemHost::new(alloc, -7, i64::MAX);
    let word = host.hash_word()?;
    let times = [host.nanos()?, host.millis()?, host.nanos()?];
    Ok(word == -7 && times == [i64::MAX, i64::MIN, i64::MIN + 1] && host.hash_word()? == -7)
}

#[test]
fn clock_goes_up(rt: HostRuntime) {
    assert!(rt; matches!(goes_up(rt.alloc()), Ok(true)));
}
