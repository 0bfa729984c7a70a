use crate::answers::reported_name;
use crate::programs::{
    F, L, LACKING_A, LONE_A, LONE_B, LONE_I, M, N, O, OBJECT, P, Q, RING_X, S, STOP, T, THREAD, U,
    V, W,
};
use crate::set::{Which, load_texts};
use dj_loader::{Image, LoadError};
use std::alloc::{AllocError, Global};

// A library, the texts of classes, and what loading them answers: the number of classes and arrays, or a refusal.
type LoadRow = (Which, &'static [&'static [u8]], &'static str);

const ROWS: [LoadRow; 32] = [
    (Which::Deterministic, &[], "Ok 27"),
    (Which::Raw, &[], "Ok 27"),
    (Which::Deterministic, &[LONE_A], "Ok 28"),
    (Which::Deterministic, &[LONE_A, LONE_B, LONE_I], "Ok 30"),
    (Which::Deterministic, &[LONE_A, LONE_A], "Duplicate A"),
    (Which::Deterministic, &[LACKING_A, LONE_A], "Duplicate A"),
    (Which::Deterministic, &[THREAD], "Ok 28"),
    (
        Which::Deterministic,
        &[OBJECT],
        "Duplicate java/lang/Object",
    ),
    (
        Which::Deterministic,
        &[OBJECT, LONE_A, LONE_A],
        "Duplicate A",
    ),
    (Which::Deterministic, &[M], "NoSuper M"),
    (Which::Deterministic, &[L], "NoSuper L"),
    (Which::Deterministic, &[M, L], "NoSuper L"),
    (Which::Deterministic, &[LONE_B, LONE_I], "NoSuper B"),
    (Which::Deterministic, &[LONE_B, LONE_A], "NoSuper B"),
    (Which::Deterministic, &[LACKING_A], "NoSuper A"),
    (Which::Deterministic, &[P], "NoSuper P"),
    (Which::Deterministic, &[P, Q], "Cycle P"),
    (Which::Deterministic, &[Q, P, O], "Cycle P"),
    (Which::Deterministic, &[S], "Cycle S"),
    (Which::Deterministic, &[T], "Cycle T"),
    (Which::Deterministic, &[U, V], "Cycle U"),
    (Which::Deterministic, &[W, RING_X], "Cycle W"),
    (Which::Deterministic, &[S, M], "NoSuper M"),
    (Which::Deterministic, &[S, LONE_A, LONE_A], "Duplicate A"),
    (Which::Deterministic, &[M, LONE_A, LONE_A], "Duplicate A"),
    (Which::Deterministic, &[T, S], "Cycle S"),
    (Which::Deterministic, &[STOP], "NoSuper djvm/Stop"),
    (Which::Deterministic, &[F], "Ok 28"),
    (Which::Deterministic, &[N, LONE_I], "Ok 29"),
    (Which::Deterministic, &[N], "NoSuper N"),
    (Which::Raw, &[U, V, L], "NoSuper L"),
    (
        Which::Deterministic,
        &[O, P, Q, LONE_A, LONE_I, LONE_B],
        "Cycle P",
    ),
];

fn reported(alloc: Global, loaded: &Result<Image, LoadError>) -> Result<String, AllocError> {
    match loaded {
        Ok(image) => format!(in alloc; "Ok {}", image.class_count()),
        Err(LoadError::Duplicate(name)) => reported_name(alloc, "Duplicate ", name.as_slice()),
        Err(LoadError::NoSuper(name)) => reported_name(alloc, "NoSuper ", name.as_slice()),
        Err(LoadError::Cycle(name)) => reported_name(alloc, "Cycle ", name.as_slice()),
        Err(LoadError::Memory) => format!(in alloc; "Memory"),
    }
}

fn answer(alloc: Global, row: &LoadRow) -> Option<String> {
    let loaded = load_texts(alloc, row.0, row.1)?;
    reported(alloc, &loaded).ok()
}

fn is_answered(alloc: Global, row: &LoadRow) -> bool {
    match answer(alloc, row) {
        Some(reported) => reported.as_str() == row.2,
        None => false,
    }
}

#[test]
fn loaded_or_refused(rt: HostRuntime) {
    for row in &ROWS {
        assert!(rt; is_answered(rt.alloc(), row), "{}", row.2);
    }
}
