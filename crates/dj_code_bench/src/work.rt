use dj_labels::{label, labelled_is_well_formed};
use dj_layout::lay_out;
use std::alloc::{AllocError, Global};

// Opcodes (JVMS 6.5).
const GOTO: u8 = 167;

const LOOKUPSWITCH: u8 = 171;

/// What the code is made of.
#[derive(Clone, Copy)]
pub enum Kind {
    /// goto to the next instruction, and the last to itself.
    Branches,
    /// lookupswitch without pairs, to itself.
    Switches,
}

/// This many instructions, and how often they are labelled and laid out.
#[derive(Clone, Copy)]
pub struct Task {
    pub kind: Kind,
    pub count: u16,
    pub times: u32,
}

fn code_of(alloc: Global, task: Task) -> Result<Vec<u8>, AllocError> {
    let mut code = Vec::new(alloc);
    for i in 0..task.count {
        match task.kind {
            Kind::Branches => {
                let offset = if i + 1 < task.count { 3 } else { 0 };
                code.extend_from_slice(&[GOTO, 0, offset])?;
            }
            Kind::Switches => {
                code.extend_from_slice(&[LOOKUPSWITCH, 0, 0, 0, 0, 0, 0, 0, 0, 0, 0, 0])?
            }
        }
    }
    Ok(code)
}

// Whether the labels of code are laid out as this many bytes.
fn is_laid_out(alloc: Global, code: &[u8]) -> bool {
    labelled_is_well_formed();
    if code.len() >= 65_536 {
        return false;
    }
    match label(alloc, code, &[]) {
        Ok(labels) => match lay_out(alloc, &labels) {
            Ok(laid) => laid.code.as_slice().len() == code.len(),
            Err(_) => false,
        },
        Err(_) => false,
    }
}

/// Whether the task was done.
pub fn is_done(alloc: Global, task: Task) -> bool {
    match code_of(alloc, task) {
        Ok(code) => {
            for _ in 0..task.times {
                if !is_laid_out(alloc, &code) {
                    return false;
                }
            }
            true
        }
        Err(_) => false,
    }
}
