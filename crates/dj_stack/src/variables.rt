ghost use Rattle.std.specs.Prelude.{◌≡◌, ◌<◌, length, replicate, set, slice_get, None, Some, IfOk, IfErr};
ghost use Rattle.dj_stack.specs.declared.errors.PushError.TheVariants as PushError;
ghost use Rattle.dj_stack.specs.Held.{locals_of};

use crate::errors::PushError;
use crate::spares::Spares;
use crate::sparse::Sparse;
use crate::wide::WideLocals;
use dj_names::Value;
use std::alloc::Global;

// This many local variables are kept whole; of more those that were given a value have a cell, which takes less memory.
const FEW: u16 = 1024;

/// The local variables of a frame.
#[derive(Debug, Drop)]
pub(crate) enum Locals {
    Wide(WideLocals),
    Sparse(Box<Sparse>),
}

impl Locals {
    /// This many that have no value.
    pub(crate) fn new(alloc: Global, spares: &mut Spares, count: u16) -> Result<Locals, PushError>
        ensures locals { IfOk result (λ locals. locals_of locals ≡ replicate count None) }
        ensures refused { IfErr result (λ e. e ≡ PushError.Memory) }
    {
        if count <= FEW {
            let items = vec![in alloc; None; usize::from(count)]?;
            Ok(Locals::Wide(WideLocals { items }))
        } else {
            Ok(Locals::Sparse(spares.variables(count)?))
        }
    }

    /// How many there are.
    pub(crate) fn len(&self) -> u16
        ensures { result ≡ length (locals_of self.now) }
    {
        match self {
            Locals::Wide(wide) => wide.items.len() as u16,
            Locals::Sparse(sparse) => sparse.len(),
        }
    }

    /// The value of one, if it has one.
    pub(crate) fn get(&self, at: u16) -> Option<Value>
        requires { at < length (locals_of self.now) }
        ensures { slice_get (locals_of self.now) at ≡ Some result }
    {
        match self {
            Locals::Wide(wide) => wide.items[usize::from(at)],
            Locals::Sparse(sparse) => sparse.get(at),
        }
    }

    /// Gives one a value, or none.
    pub(crate) fn set(&mut self, at: u16, value: Option<Value>)
        requires { at < length (locals_of self.old) }
        ensures locals { locals_of self.new ≡ set (locals_of self.old) at value }
    {
        match self {
            Locals::Wide(wide) => wide.items[usize::from(at)] = value,
            Locals::Sparse(sparse) => sparse.set(at, value),
        }
    }
}
