ghost use Rattle.std.specs.Prelude.{◌≡◌, ◌<◌, ◌^◌, ◌++◌, ◌∷◌, [], length, map, replicate, List, None, Some, IfOk};
ghost use Rattle.dj_pool.specs.trusted.Pool.{Constant};
ghost use Rattle.dj_model.specs.trusted.Kinds.{Signature};
ghost use Rattle.dj_declarations.specs.trusted.Files.{name_in};
ghost use Rattle.dj_declarations.specs.Members.{IsDescriptor};
ghost use Rattle.dj_program.specs.trusted.Codes.{code_in};
ghost use Rattle.dj_program.specs.Views.{parts_of};
ghost use Rattle.dj_shape_rule.specs.Judging.{IsFaultOf, IsJudged, fault_reported};
ghost use Rattle.dj_shape_rule.specs.Listed.{AreFew};
ghost use Rattle.dj_shape_rule.specs.Passing.{Case, IsFirst};
ghost use Rattle.dj_shape_rule.specs.Pools.{ArePoolKinds};
ghost use Rattle.dj_shape_rule.specs.Reading.{entries_with, signature_with};
ghost use Rattle.dj_shape_rule.specs.trusted.Rule.{signature_at};
ghost use Rattle.dj_shape_rule.specs.Rule.{IsShapeAnswer};

use crate::error::ShapeError;
use crate::frames::KeptFrames;
use crate::listing::list_frames;
use crate::pass::{Method, Pass, first_unhandled};
use crate::pool::{CallKinds, PoolKinds};
use crate::reading::{Reader, objects_made, read_frames};
use crate::state::KindState;
use dj_names::Kind;
use dj_ops::Frames;
use dj_program::MethodCode;
use std::alloc::Global;

/// Where code fails to have shape.
#[derive(Clone, Copy, Debug, PartialEq, Eq)]
pub struct ShapeFault {
    /// The number of the instruction at which it fails; none where the attribute is no stack map.
    pub number: Option<u32>,
}

// Appends kinds, each as an entry.
fn add_kinds(entries: &mut Vec<Option<Kind>>, kinds: &[Kind]) -> Result<(), ShapeError>
    ensures { IfOk result (λ x. entries.new.items ≡ entries.old.items ++ map (λ kind. Some kind) kinds.now) }
{
    for kind in kinds {
        entries.push(Some(*kind))?;
    }
    Ok(())
}

// The parameters as entries, the object on which the method is called first.
fn parameter_entries(
    alloc: Global,
    is_static: bool,
    call: &CallKinds,
) -> Result<Vec<Option<Kind>>, ShapeError>
    ensures { IfOk result (λ entries. entries.items ≡ entries_with is_static call.now) }
{
    let mut entries = Vec::new(alloc);
    if !is_static {
        entries.push(Some(Kind::Ref))?;
    }
    add_kinds(&mut entries, call.parameters())?;
    Ok(entries)
}

// The first instruction that doesn't hold, in code whose frames were read and whose kinds at the beginning are these.
fn judge(
    alloc: Global,
    kinds: &PoolKinds,
    returned: Option<Kind>,
    code: &MethodCode,
    frames: KeptFrames,
    mut state: KindState,
) -> Result<Option<u32>, ShapeError>
    requires short { length code.now.code.code < 2 ^ 32 }
    requires one { state.frames ≡ replicate state.max_locals None ∷ [] }
    requires none { state.states ≡ [] }
    requires few { AreFew frames state.max_locals }
    ensures { IfOk result (λ fault. (c : Case) → IsJudged kinds.now returned code.now frames state c → IsFirst c fault) }
{
    list_frames(alloc, &frames, &mut state)?;
    let rows = code.code.ranges.as_slice();
    let unhandled = first_unhandled(&frames, rows);
    let method = Method {
        kinds,
        code: code.code.code.as_slice(),
        rows,
        frames,
        returned,
        unhandled,
    };
    let mut pass = Pass::new(state);
    let fault = pass.first_fault(&method)?;
    pass.with_handlers(alloc, &method, fault)
}

// The first fault of code with a stack map.
fn fault_with_frames(
    alloc: Global,
    kinds: &PoolKinds,
    is_static: bool,
    call: &CallKinds,
    code: &MethodCode,
    frames: &Frames,
) -> Result<Option<u32>, ShapeError>
    requires { length code.now.code.code < 2 ^ 32 }
    ensures { IfOk result (λ fault. (pool : List Constant) → ArePoolKinds pool kinds.now → code.now.frames ≡ Some frames.now
        → IsFaultOf (signature_with is_static call.now) (code_in pool (parts_of code.now)) fault) }
{
    let instrs = code.code.code.as_slice();
    let entries = parameter_entries(alloc, is_static, call)?;
    let reader = Reader::new(alloc, entries, instrs.len())?;
    let mut locals = Vec::new(alloc);
    reader.copy_locals(&mut locals)?;
    let Some(state) = KindState::new(alloc, code.max_stack, code.max_locals, &locals)? else {
        return Ok(Some(0));
    };
    let made = objects_made(kinds, instrs);
    match read_frames(
        alloc,
        (code.max_stack, code.max_locals),
        &made,
        reader,
        frames.as_slice(),
    )? {
        Err(at) => Ok(Some(at)),
        Ok(reported) => judge(alloc, kinds, call.result(), code, reported, state),
    }
}

fn fault_reported(fault: Option<u32>) -> Option<ShapeFault>
    ensures { result ≡ fault_reported fault }
{
    Some(ShapeFault {
        number: Some(fault?),
    })
}

/// The first fault of code in shape, if it has one. `desc` is the index of the method's descriptor, which has no float and no double.
pub fn shape(
    alloc: Global,
    kinds: &PoolKinds,
    is_static: bool,
    desc: u16,
    code: &MethodCode,
) -> Result<Option<ShapeFault>, ShapeError>
    requires { length code.now.code.code < 2 ^ 32 }
    ensures { IfOk result (λ fault. (pool : List Constant) (signature : Signature) → ArePoolKinds pool kinds.now
        → IsDescriptor (name_in pool desc) → signature_at pool is_static desc ≡ Some signature → IsShapeAnswer signature (code_in pool (parts_of code.now)) fault) }
{
    let Some(frames) = &code.frames else {
        return Ok(Some(ShapeFault { number: None }));
    };
    // The kinds of the descriptor are kept.
    let Some(call) = kinds.call(desc) else {
        return Ok(None);
    };
    let fault = fault_with_frames(alloc, kinds, is_static, call, code, frames)?;
    Ok(fault_reported(fault))
}
