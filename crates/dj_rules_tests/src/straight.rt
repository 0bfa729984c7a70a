use dj_file_rules::judge_files;
use dj_names::{Kind, Name, Outcome, Thresholds, Value};
use dj_report::PathFile;
use dj_straight::{
    Action, IntOperation, StraightEnding, StraightMethod, StraightSet, read_instrs, run_method,
    shape_fault, straight_set,
};
use dj_test_files::{A, class_file};
use std::alloc::{AllocError, Global};

// Opcodes (JVMS 6.5).
const ALOAD_0: u8 = 42;

const ARETURN: u8 = 176;

const ATHROW: u8 = 191;

const LOAD_0: Action = Action::Load(Kind::Ref, 0);

fn is_verify(methods: &[StraightMethod]) -> bool {
    match methods {
        [method] => {
            method.name.as_slice() == b"verify".as_slice()
                && method.actions.as_slice() == [LOAD_0, Action::ReturnReference].as_slice()
        }
        _ => false,
    }
}

fn is_class_a(set: &StraightSet) -> bool {
    match &set.class {
        Some(class) => class.name.as_slice() == b"A".as_slice() && is_verify(&class.methods),
        None => false,
    }
}

// The straight set that the file of the class A is, which is read before.
fn set_of_a(alloc: Global) -> Result<Option<StraightSet>, AllocError> {
    let bytes = class_file(alloc, A)?;
    let files = [PathFile {
        path: "A.class",
        bytes: &bytes,
    }];
    straight_set(alloc, &files, judge_files(alloc, &files)?.only)
}

#[test]
fn one_straight_class(rt: HostRuntime) {
    let set = set_of_a(rt.alloc());
    assert!(rt; matches!(&set, Ok(Some(set)) if is_class_a(set)));
}

// aload_0 and areturn, and an instruction that isn't straight.
#[test]
fn straight_code_is_cut(rt: HostRuntime) {
    let two = read_instrs(rt.alloc(), &[ALOAD_0, ARETURN]);
    assert!(rt; matches!(&two, Ok(Some(instrs)) if instrs.as_slice().len() == 2));
    let other = read_instrs(rt.alloc(), &[ALOAD_0, ATHROW]);
    assert!(rt; matches!(&other, Ok(None)));
}

// The first byte of the input, less -3, in an array of its own.
const LESS: [Action; 13] = [
    LOAD_0,
    Action::Push(Value::Int(0)),
    Action::LoadByte,
    Action::Store(Kind::Int, 1),
    Action::Push(Value::Int(1)),
    Action::NewByteArray,
    Action::Dup,
    Action::Push(Value::Int(0)),
    Action::Load(Kind::Int, 1),
    Action::Push(Value::Int(-3)),
    Action::Compute(IntOperation::Subtract),
    Action::StoreByte,
    Action::ReturnReference,
];

// Its run on the byte -5, where it has shape.
fn run_of_less(alloc: Global) -> Result<Option<StraightEnding>, AllocError> {
    let method = StraightMethod {
        flags: 9,
        name: Name::from_slice(alloc, b"verify")?,
        max_stack: 5,
        max_locals: 2,
        actions: Vec::from_slice(alloc, &LESS)?,
    };
    let thresholds = Thresholds {
        alloc: 24,
        invoke: 0,
        jump: 0,
        throw: 0,
    };
    match shape_fault(alloc, &method)? {
        None => Ok(Some(run_method(alloc, &method, &[251], thresholds)?)),
        Some(_) => Ok(None),
    }
}

fn is_minus_two(ending: &StraightEnding) -> bool {
    match &ending.outcome {
        Outcome::OkBytes(bytes) => {
            bytes.as_slice() == [254].as_slice() && ending.costs.alloc == 24
        }
        _ => false,
    }
}

// A byte has a sign: -5 less -3 is -2.
#[test]
fn run_with_shape(rt: HostRuntime) {
    let run = run_of_less(rt.alloc());
    assert!(rt; matches!(&run, Ok(Some(ending)) if is_minus_two(ending)));
}
