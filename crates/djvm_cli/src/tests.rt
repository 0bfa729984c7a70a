use crate::djvm::djvm;
use crate::texts;
use crate::texts::class_file;
use dj_edge::{Host, HostError, MemFiles, MemHost, MemSink, Order, paths_differ};
use dj_names::Costs;
use dj_sandbox::PlainEngine;
use std::alloc::{AllocError, Global};
use std::test::Fail;

// Tags of constants (JVMS 4.4). After UTF8 comes the length of the text, after CLASS the index of the name.
const UTF8: u8 = 1;

const CLASS: u8 = 7;

// Access flags (JVMS 4.1, 4.6).
const PUBLIC: u8 = 0x01;

const STATIC: u8 = 0x08;

const SUPER: u8 = 0x20;

// Opcodes (JVMS 6.5).
const ALOAD_0: u8 = 42;

const ARETURN: u8 = 176;

const MAGIC: &[u8] = b"\xca\xfe\xba\xbe";

// The class file that the text of the class A means, by its parts (JVMS 4.1).
const FILE_OF_A: &[&[u8]] = &[
    MAGIC,
    // The minor version and the major one.
    &[0, 0, 0, 52],
    // Seven constants, from 1 on.
    &[0, 8],
    &[UTF8, 0, 1],
    b"A",
    &[CLASS, 0, 1],
    &[UTF8, 0, 16],
    b"java/lang/Object",
    &[CLASS, 0, 3],
    &[UTF8, 0, 6],
    b"verify",
    &[UTF8, 0, 6],
    b"([B)[B",
    &[UTF8, 0, 4],
    b"Code",
    // The class and its superclass, no interfaces, no fields, one method.
    &[0, PUBLIC | SUPER],
    &[0, 2, 0, 4],
    &[0, 0],
    &[0, 0],
    &[0, 1],
    // The flags, the name and the descriptor of the method, and one attribute.
    &[0, PUBLIC | STATIC],
    &[0, 5, 0, 6],
    &[0, 1],
    // Code, of 14 bytes: a stack of one, one local variable, the code, no rows and no attributes.
    &[0, 7, 0, 0, 0, 14],
    &[0, 1, 0, 1],
    &[0, 0, 0, 2],
    &[ALOAD_0, ARETURN],
    &[0, 0],
    &[0, 0],
    // The class has no attributes.
    &[0, 0],
];

// What a file holds.
enum Content {
    Bytes(&'static [u8]),
    // The class file of a text.
    Class(&'static [u8]),
    // The same without its last byte.
    Cut(&'static [u8]),
}

// A file that was cut and one with two violations in the folder c, a good one in each other folder, inputs, and two texts.
const FILES: [(&str, Content); 16] = [
    ("c/B.class", Content::Class(texts::NATIVE)),
    ("c/A.class", Content::Cut(texts::A)),
    ("d/A.class", Content::Class(texts::A)),
    ("hash/A.class", Content::Class(texts::HASH)),
    ("heap/A.class", Content::Class(texts::HEAP)),
    ("loop/A.class", Content::Class(texts::LOOP)),
    ("sum/A.class", Content::Class(texts::SUM)),
    ("throw/A.class", Content::Class(texts::THROW)),
    ("call/A.class", Content::Class(texts::CALL)),
    ("begin/A.class", Content::Class(texts::BEGIN)),
    ("object/A.class", Content::Class(texts::OBJECT)),
    ("in", Content::Bytes(b"\x0a\x0b")),
    ("empty", Content::Bytes(b"")),
    ("three", Content::Bytes(b"\x01\x02\x03")),
    ("t", Content::Bytes(texts::A)),
    ("u", Content::Bytes(texts::NO_NAME)),
];

// The words, the order of listings, the number of the store's call that fails, how many bytes the sink takes, the status, and what is written.
type Row<'a> = (&'static [&'static str], Order, u64, u64, u8, &'a [u8]);

const NONE: u64 = 99;

const CHECK: &[&str] = &["check", "c/"];

const VERIFY: &[&str] = &["verify", "d", "A", "in"];

const LACKING: &[&str] = &["verify", "d", "A", "none"];

const NO_TEXT: &[&str] = &["assemble", "none"];

const ASSEMBLE: &[&str] = &["assemble", "t"];

const REFUSED: &[&str] = &["assemble", "u"];

const REJECTED: &[u8] =
    b"REJECTED 3\nA.class - - 1 MALFORMED\nB.class finalize()V - 8 FINALIZER\nB.class n()V - 7 NATIVE\n";

const RETURNED: &[u8] = b"OK 2 0a0b\ncosts alloc 0 invoke 0 jump 0 throw 0\n";

const ENDS: [Row<'static>; 18] = [
    (CHECK, Order::Given, NONE, 999, 2, REJECTED),
    (CHECK, Order::Reversed, NONE, 999, 2, REJECTED),
    (CHECK, Order::Given, 0, 999, 65, b""),
    (CHECK, Order::Given, 1, 999, 65, b""),
    (CHECK, Order::Given, 2, 999, 65, b""),
    (CHECK, Order::Given, NONE, 0, 66, b""),
    (CHECK, Order::Given, NONE, 11, 66, b"REJECTED 3\n"),
    (VERIFY, Order::Given, NONE, 999, 0, RETURNED),
    (VERIFY, Order::Reversed, NONE, 999, 0, RETURNED),
    (VERIFY, Order::Given, 0, 999, 65, b""),
    (VERIFY, Order::Given, 1, 999, 65, b""),
    (VERIFY, Order::Given, 2, 999, 65, b""),
    (VERIFY, Order::Given, NONE, 9, 66, b"OK 2 0a0b"),
    (LACKING, Order::Given, NONE, 999, 65, b"ABSENT none\n"),
    (NO_TEXT, Order::Given, NONE, 999, 65, b"ABSENT none\n"),
    (NO_TEXT, Order::Given, 0, 999, 65, b""),
    (ASSEMBLE, Order::Given, NONE, 4, 66, MAGIC),
    (REFUSED, Order::Given, NONE, 999, 68, b"ASM SYNTAX 1 10\n"),
];

// Of a run of `raw`: the words, the number of the store's call that fails, the host's word for hashes, how many bytes the sink takes, the status, what is
// written, the words that the host gave, and how many steps the engine's runs made.
type RawRow = (
    &'static [&'static str],
    u64,
    i32,
    u64,
    u8,
    &'static [u8],
    &'static [i32],
    &'static [u64],
);

const HASHES: &[&str] = &["raw", "hash", "A", "empty"];

const SUMS: &[&str] = &["raw", "sum", "A", "three"];

const FILLS: &[&str] = &["raw", "heap", "A", "empty"];

const LOOPS: &[&str] = &["raw", "loop", "A", "empty", "--steps", "5"];

const THROWS: &[&str] = &["raw", "throw", "A", "empty"];

const CALLS: &[&str] = &["raw", "call", "A", "empty"];

const BEGINS: &[&str] = &["raw", "begin", "A", "empty"];

const OBJECTS: &[&str] = &["raw", "object", "A", "empty"];

const RUNS_REJECTED: &[&str] = &["raw", "c", "A", "empty"];

const RUNS_LACKING: &[&str] = &["raw", "hash", "A", "none"];

const NULL_THROWN: &[u8] = b"EXCEPTION java/lang/NullPointerException null\nsteps 2\n";

const NOT_BEGUN: &[u8] = b"INIT A java/lang/NullPointerException null\nsteps 2\n";

const RAW_ENDS: [RawRow; 16] = [
    (HASHES, NONE, 7, 999, 0, b"OK 1 07\nsteps 16\n", &[7], &[16]),
    (HASHES, NONE, 8, 999, 0, b"OK 1 08\nsteps 16\n", &[8], &[16]),
    (HASHES, NONE, 7, 3, 66, b"OK ", &[7], &[16]),
    (HASHES, 0, 7, 999, 65, b"", &[], &[]),
    (HASHES, 1, 7, 999, 65, b"", &[], &[]),
    (HASHES, 2, 7, 999, 65, b"", &[], &[]),
    (SUMS, NONE, 7, 999, 0, b"OK 1 06\nsteps 51\n", &[], &[51]),
    (THROWS, NONE, 7, 999, 1, NULL_THROWN, &[], &[2]),
    (
        CALLS,
        NONE,
        7,
        999,
        4,
        b"DEPTH\nsteps 2048\n",
        &[],
        &[2_048],
    ),
    (BEGINS, NONE, 7, 999, 5, NOT_BEGUN, &[], &[2]),
    (OBJECTS, NONE, 7, 999, 6, b"LINK\nsteps 2\n", &[], &[2]),
    (
        FILLS,
        NONE,
        7,
        999,
        9,
        b"HEAP 16 67108880\nsteps 2\n",
        &[],
        &[2],
    ),
    (LOOPS, NONE, 7, 999, 8, b"STEPS 5\nsteps 5\n", &[], &[5]),
    (RUNS_REJECTED, NONE, 7, 999, 2, REJECTED, &[], &[]),
    (RUNS_LACKING, NONE, 7, 999, 65, b"ABSENT none\n", &[], &[]),
    (VERIFY, NONE, 7, 999, 0, RETURNED, &[], &[]),
];

// In a run of `raw` no charges are counted.
const NOTHING: Costs = Costs {
    alloc: 0,
    invoke: 0,
    jump: 0,
    throw: 0,
};

// A host in memory that keeps how many answers it gave, and the last of its words for hashes.
#[derive(Drop)]
struct ReportedHost {
    host: MemHost,
    count: u64,
    word: Option<i32>,
}

impl ReportedHost {
    fn new(alloc: Global, word: i32) -> ReportedHost {
        ReportedHost {
            host: MemHost::new(alloc, word, 5),
            count: 0,
            word: None,
        }
    }

    // Whether these words are all that it gave: none, or one word.
    fn gave(&self, words: &[i32]) -> bool {
        self.count == words.len() as u64 && self.word == words.first().copied()
    }
}

impl Host for ReportedHost {
    ghost use Rattle.dj_edge.specs.Hosts.{given_of};

    ghost given = { λ reported. given_of reported.host };

    fn hash_word(&mut self) -> Result<i32, HostError> {
        let word = self.host.hash_word()?;
        self.count = self.count.saturating_add(1);
        self.word = Some(word);
        Ok(word)
    }

    fn nanos(&mut self) -> Result<i64, HostError> {
        let nanos = self.host.nanos()?;
        self.count = self.count.saturating_add(1);
        Ok(nanos)
    }

    fn millis(&mut self) -> Result<i64, HostError> {
        let millis = self.host.millis()?;
        self.count = self.count.saturating_add(1);
        Ok(millis)
    }
}

fn words_of(alloc: Global, words: &[&str]) -> Result<Vec<String>, AllocError> {
    let mut all = Vec::new(alloc);
    for word in words {
        all.push(String::from_str(alloc, word)?)?;
    }
    Ok(all)
}

fn bytes_of(alloc: Global, content: &Content) -> Result<Vec<u8>, AllocError> {
    match content {
        Content::Bytes(bytes) => Vec::from_slice(alloc, bytes),
        Content::Class(text) => class_file(alloc, text),
        Content::Cut(text) => {
            let mut file = class_file(alloc, text)?;
            let _ = file.pop();
            Ok(file)
        }
    }
}

fn held(alloc: Global) -> Result<Vec<(String, Vec<u8>)>, AllocError> {
    let mut held = Vec::new(alloc);
    for (path, content) in &FILES {
        let bytes = bytes_of(alloc, content)?;
        held.push((String::from_str(alloc, path)?, bytes))?;
    }
    Ok(held)
}

// Whether the job of the row's words ends as the row says.
fn ends(alloc: Global, row: &Row<'_>) -> Result<bool, AllocError> {
    let words = words_of(alloc, row.0)?;
    let held = held(alloc)?;
    if !paths_differ(&held) {
        return Ok(false);
    }
    let mut files = MemFiles::new(alloc, held, row.1, vec![in alloc; row.2]?);
    let mut host = MemHost::new(alloc, 7, 5);
    let mut sink = MemSink::new(alloc, 1, row.3);
    let mut engine = PlainEngine::new(alloc);
    let status = djvm(alloc, &words, &mut files, &mut host, &mut sink, &mut engine);
    Ok(status == row.4 && sink.bytes() == row.5)
}

fn all_end(alloc: Global, rows: &[Row<'_>]) -> Result<bool, AllocError> {
    for row in rows {
        if !ends(alloc, row)? {
            return Ok(false);
        }
    }
    Ok(true)
}

// Whether the text of the class A becomes its class file.
fn is_assembled(alloc: Global) -> Result<bool, AllocError> {
    let mut file = Vec::new(alloc);
    for part in FILE_OF_A {
        file.extend_from_slice(part)?;
    }
    ends(alloc, &(ASSEMBLE, Order::Given, NONE, 999, 0, &file))
}

// Whether these are all the runs that the engine made.
fn made(engine: &PlainEngine, steps: &[u64]) -> bool {
    let runs = engine.runs();
    runs.len() == steps.len()
        && runs
            .iter()
            .zip(steps)
            .all(|(run, steps)| run.0 == NOTHING && run.1 == *steps)
}

// Whether the run of the row's words ends as the row says, and asks the host and makes runs no more than that.
fn ends_raw(alloc: Global, row: &RawRow) -> Result<bool, AllocError> {
    let words = words_of(alloc, row.0)?;
    let held = held(alloc)?;
    if !paths_differ(&held) {
        return Ok(false);
    }
    let mut files = MemFiles::new(alloc, held, Order::Given, vec![in alloc; row.1]?);
    let mut host = ReportedHost::new(alloc, row.2);
    let mut sink = MemSink::new(alloc, 1, row.3);
    let mut engine = PlainEngine::new(alloc);
    let status = djvm(alloc, &words, &mut files, &mut host, &mut sink, &mut engine);
    let reported = status == row.4 && sink.bytes() == row.5;
    Ok(reported && host.gave(row.6) && made(&engine, row.7))
}

// Where there is ample memory a job ends with its report: a body that is always out of memory is refused, and so is one that is out of memory
// where a store fails or lacks a file.
#[test]
fn always_out_of_memory(rt: HostRuntime) -> Result<(), Fail> {
    assert!(rt; all_end(rt.alloc(), &ENDS)?);
    assert!(rt; is_assembled(rt.alloc())?);
    Ok(())
}

// The report on a run of `raw` is as the machine makes the run, the host is asked for what the run takes, and the engine keeps the run: a body that asks once more, or
// leaves its run out, is refused.
#[test]
fn raw_runs(rt: HostRuntime) -> Result<(), Fail> {
    for row in &RAW_ENDS {
        assert!(rt; ends_raw(rt.alloc(), row)?);
    }
    Ok(())
}
