ghost use Rattle.std.specs.Prelude.{◌≡◌, ◌^◌, ◌<◌, length, Some, Contains, slice_get, IfOk, IfErr, IfSome, IfNone};
ghost use Rattle.dj_ops.specs.trusted.Instructions.{Stands};
ghost use Rattle.dj_labels.specs.trusted.Labels.{IsCut};
ghost use Rattle.dj_labels.specs.Passes.{AreStarts, step_error, IsStep, IsStartsFault, IsRising};

use crate::errors::CodeError;
use dj_ops::{Instr, OpError, read_instr};
use std::alloc::Global;

/// Why no instruction was read at an address.
fn step_error(at: u32, error: OpError) -> CodeError
    ensures { result ≡ step_error at error }
{
    match error {
        OpError::Memory => CodeError::Memory,
        _ => CodeError::Op(at),
    }
}

/// The instruction at an address, and the address after it.
fn next_instr(alloc: Global, code: &[u8], at: u32) -> Result<(Instr, u32), CodeError>
    requires within { at < length code.now }
    requires few { length code.now < 2 ^ 16 }
    ensures stands { IfOk result (λ x. Stands code.now at x.0 x.1) }
    ensures refused { IfErr result (IsStep code.now at) }
{
    read_instr(alloc, code, at).map_err(|error| step_error(at, error))
}

/// The addresses at which the instructions of the code start, and the instructions, whose targets are addresses too.
pub fn read_code(alloc: Global, code: &[u8]) -> Result<(Vec<u32>, Vec<Instr>), CodeError>
    requires few { length code.now < 2 ^ 16 }
    ensures read { IfOk result (λ x. IsCut code.now x.0.items x.1.items (length code.now)) }
    ensures refused { IfErr result (IsStartsFault code.now) }
{
    let mut starts = Vec::new(alloc);
    let mut instrs = Vec::new(alloc);
    let mut at = 0;
    while (at as usize) < code.len() {
        let (instr, next) = next_instr(alloc, code, at)?;
        starts.push(at)?;
        instrs.push(instr)?;
        at = next;
    }
    // The labelled code of each method is kept for a whole job.
    starts.shrink_to_fit();
    instrs.shrink_to_fit();
    Ok((starts, instrs))
}

/// The addresses at which the instructions of the code start.
pub fn read_starts(alloc: Global, code: &[u8]) -> Result<Vec<u32>, CodeError>
    requires few { length code.now < 2 ^ 16 }
    ensures read { IfOk result (λ starts. AreStarts code.now starts.items) }
    ensures refused { IfErr result (IsStartsFault code.now) }
{
    let (starts, _) = read_code(alloc, code)?;
    Ok(starts)
}

/// The number of the instruction that starts at the address.
fn number_in(starts: &[u32], address: usize) -> Option<u32>
    requires { IsRising starts.now }
    ensures found { IfSome result (λ number. slice_get starts.now number ≡ Some address) }
    ensures none { IfNone result (Contains starts.now address → ⊥) }
{
    let Ok(key) = u32::try_from(address) else {
        return None;
    };
    match starts.binary_search(&key) {
        Ok(number) => Some(number as u32),
        Err(_) => None,
    }
}

/// The addresses at which instructions start; an instruction's number is its place among them.
#[derive(Drop)]
pub struct StartTable {
    pub starts: Vec<u32>,
    ghost rising: { IsRising starts.items },
}

impl StartTable {
    /// The numbers of the instructions of code.
    pub fn new(starts: Vec<u32>) -> StartTable
        requires { IsRising starts.items }
        ensures { result.starts.items ≡ starts.items }
    {
        StartTable { starts }
    }

    /// The addresses.
    pub fn into_starts(self) -> Vec<u32>
        ensures { result.items ≡ self.starts.items }
    {
        self.starts
    }

    /// The number of the instruction that starts at the address.
    pub fn number_at(&self, address: usize) -> Option<u32>
        ensures found { IfSome result (λ number. slice_get self.now.starts.items number ≡ Some address) }
        ensures none { IfNone result (Contains self.now.starts.items address → ⊥) }
    {
        number_in(&self.starts, address)
    }
}
