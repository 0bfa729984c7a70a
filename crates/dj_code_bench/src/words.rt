use crate::work::{Kind, Task};
use std::env;
use std::rt::Env;

/// The task of the command line, or none where its words give none.
pub fn task_of<R: Env + AllocGlobal>(rt: &R) -> Option<Task> {
    let mut words = env::args(rt).ok()?.skip(1);
    let kind = match words.next()?.as_str() {
        "branches" => Kind::Branches,
        "switches" => Kind::Switches,
        _ => return None,
    };
    let count = words.next()?.parse::<u16>().ok()?;
    let times = words.next()?.parse::<u32>().ok()?;
    Some(Task { kind, count, times })
}
