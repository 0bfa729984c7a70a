ghost use Rattle.std.specs.Prelude.{◌≡◌, ◌≤◌, ◌<◌, ◌+◌, List, Some, true, false, length, drop, reverse, IfOk};
ghost use Rattle.dj_names.specs.declared.descriptor.Kind.{Kind};
ghost use Rattle.dj_names.specs.trusted.Types.{Name, parameters_of};
ghost use Rattle.dj_model.specs.trusted.Types.{Member};
ghost use Rattle.dj_model.specs.trusted.Instructions as model;
ghost use Rattle.dj_model.specs.trusted.Members.{kinds_of};
ghost use Rattle.dj_model.specs.trusted.Program.{is_static};
ghost use Rattle.dj_model.specs.trusted.Linking.{FoundMethod, resolve_method};
ghost use Rattle.dj_stack.specs.Frames.{top_operands};
ghost use Rattle.dj_resolution.specs.Linked.{class_name};
ghost use Rattle.dj_natives.specs.Known.{AreKnown};
ghost use Rattle.dj_numbering.specs.Typed.{types_of};
ghost use Rattle.dj_numbering.specs.Members.{all_methods};
ghost use Rattle.dj_image.specs.Imaged.{program_of, typed_of};
ghost use Rattle.dj_invocation.specs.declared.choosing.Mode.TheVariants as modes;
ghost use Rattle.dj_invocation.specs.Choosing.{IsMethod, reported_mode};
ghost use Rattle.dj_invocation.specs.Operands.{fit, with_operands};
ghost use Rattle.dj_invocation.specs.Receivers.{AreNumbered};
ghost use Rattle.dj_invocation.specs.Natives.{AreNatives};
ghost use Rattle.dj_invocation.specs.Invoking.{Invokes, RunsBody, Steps, site};

use crate::answers::Invoked;
use crate::arguments::{are_instances, are_there, is_there};
use crate::choosing::{Chosen, Mode, choose};
use crate::entering::{Room, enter};
use crate::natives::Natives;
use crate::operands::{drop_operands, fit, receiver};
use dj_heap::Heap;
use dj_image::{Body, Image, MethodCode, MethodId};
use dj_names::{Kind, Raised, Value};
use dj_stack::Frames;
use std::alloc::AllocError;

// The room for a frame of a method with code.
fn room_of(method: MethodId, code: &MethodCode) -> Room
    ensures method { result.method ≡ method.number }
    ensures locals { result.max_locals ≡ code.now.max_locals }
    ensures stack { result.max_stack ≡ code.now.max_stack }
{
    Room {
        method: method.number,
        max_locals: code.max_locals,
        max_stack: code.max_stack,
    }
}

// Takes the operands of a call away, and the run goes on in this way.
fn give_up(frames: &mut Frames, taken: u16, invoked: Invoked) -> Invoked
    requires { taken ≤ length (top_operands frames.old) }
    ensures frames { frames.new ≡ with_operands (drop taken (top_operands frames.old)) frames.old }
    ensures invoked { result ≡ invoked }
{
    drop_operands(frames, taken);
    invoked
}

// Pushes a frame of a method with code, with this many operands as its arguments, where one more frame is allowed.
fn enter_code(
    frames: &mut Frames,
    arguments: &mut Vec<Value>,
    method: MethodId,
    code: &MethodCode,
    taken: u16,
) -> Result<Invoked, AllocError>
    requires { taken ≤ length (top_operands frames.old) }
    ensures { IfOk result (Steps method code.now taken frames.old frames.new) }
{
    let entered = enter(frames, arguments, taken, room_of(method, code))?;
    if entered {
        Ok(Invoked::Entered)
    } else {
        Ok(Invoked::TooDeep)
    }
}

// Whether a method is static as a call requires.
#[tactic(auto, using(crate::proofs::Bodies::called_so))]
fn is_called_so(image: &Image, method: MethodId, static_call: bool) -> bool
    requires { method.number < length (all_methods (program_of image.now)) }
    ensures { result ≡ true → (found : FoundMethod) → IsMethod (program_of image.now) method found → is_static found.method.flags ≡ static_call }
{
    is_static(image.method(method).flags) == static_call
}

// Whether these are the flags of a static method (JVMS table 4.6-A).
fn is_static(flags: u16) -> bool
    ensures { result ≡ is_static flags }
{
    flags & 0x0008 != 0
}

// Runs a method on this many operands, the upper ones of which are its arguments.
fn run_method(
    image: &Image,
    natives: &Natives,
    heap: &Heap,
    frames: &mut Frames,
    arguments: &mut Vec<Value>,
    method: MethodId,
    taken: u16,
    count: u16,
) -> Result<Invoked, AllocError>
    requires there { method.number < length (all_methods (program_of image.now)) }
    requires natives { AreNatives image.now natives.now }
    requires numbered { AreNumbered image.now heap.now.heap }
    requires taken { taken ≤ length (top_operands frames.old) }
    requires count { count ≤ taken }
    ensures { (mode : model.Mode) (own : Name) (m : Member) (found : FoundMethod) → IsMethod (program_of image.now) method found
        → RunsBody (site image.now frames.old heap.now.heap mode own m) taken count found
        → IfOk result (λ invoked. Invokes (site image.now frames.old heap.now.heap mode own m) frames.new (Some invoked)) }
{
    match image.body(method) {
        Body::Abstract => Ok(give_up(frames, taken, Invoked::Link)),
        Body::Code(code) => enter_code(frames, arguments, method, code, taken),
        Body::Native(id) => {
            // In a sound program a method is static where it is called without a receiver, and each reference is null or that of an object.
            if !is_called_so(image, method, taken == count) {
                return Err(AllocError);
            }
            if !are_there(heap, frames, count) {
                return Err(AllocError);
            }
            if are_instances(image, heap, frames, natives.classes_of(method), count) {
                Ok(Invoked::Native(id, taken))
            } else {
                Ok(give_up(frames, taken, Invoked::Link))
            }
        }
    }
}

// A call on a receiver, below this many arguments.
fn invoke_on(
    image: &Image,
    natives: &Natives,
    heap: &Heap,
    frames: &mut Frames,
    arguments: &mut Vec<Value>,
    count: u16,
    mode: Mode,
    own: u32,
    method: MethodId,
) -> Result<Option<Invoked>, AllocError>
    requires there { method.number < length (all_methods (program_of image.now)) }
    requires own { own < length (program_of image.now) }
    requires natives { AreNatives image.now natives.now }
    requires numbered { AreNumbered image.now heap.now.heap }
    ensures { (called : model.Mode) (m : Member) (resolved : FoundMethod) (kinds : List Kind) → reported_mode called ≡ mode → (mode ≡ modes.Static → ⊥)
        → resolve_method (program_of image.now) image.now.prefix m ≡ Some resolved → IsMethod (program_of image.now) method resolved
        → kinds_of (parameters_of m.desc) ≡ Some kinds → count ≡ length kinds → fit (reverse kinds) (top_operands frames.old) ≡ true
        → IfOk result (Invokes (site image.now frames.old heap.now.heap called (class_name (program_of image.now) own) m) frames.new) }
{
    let Some(r) = receiver(frames, count) else {
        return Ok(None);
    };
    // In a sound program each reference is null or that of an object.
    if !is_there(heap, r) {
        return Err(AllocError);
    }
    match choose(image, heap, mode, own, method, r) {
        Chosen::Method(found) => {
            let invoked = run_method(
                image,
                natives,
                heap,
                frames,
                arguments,
                found,
                count + 1,
                count,
            )?;
            Ok(Some(invoked))
        }
        Chosen::Null => Ok(Some(give_up(frames, count + 1, Invoked::Raise(Raised::NullPointer)))),
        Chosen::Link => Ok(Some(give_up(frames, count + 1, Invoked::Link))),
    }
}

/// Calls a method to which an instruction resolves in a method of the class `own`, on operands of these kinds and, where it isn't static, the object below them.
/// None where the operands don't have these.
pub fn invoke(
    image: &Image,
    natives: &Natives,
    heap: &Heap,
    frames: &mut Frames,
    arguments: &mut Vec<Value>,
    kinds: &[Kind],
    mode: Mode,
    own: u32,
    method: MethodId,
) -> Result<Option<Invoked>, AllocError>
    requires there { method.number < length (all_methods (program_of image.now)) }
    requires own { own < length (program_of image.now) }
    requires natives { AreNatives image.now natives.now }
    requires known { AreKnown (types_of (typed_of image.now)) heap.now }
    ensures { (called : model.Mode) (m : Member) (resolved : FoundMethod) → reported_mode called ≡ mode
        → resolve_method (program_of image.now) image.now.prefix m ≡ Some resolved → IsMethod (program_of image.now) method resolved
        → kinds_of (parameters_of m.desc) ≡ Some kinds.now
        → IfOk result (Invokes (site image.now frames.old heap.now.heap called (class_name (program_of image.now) own) m) frames.new) }
{
    if !fit(frames, kinds) {
        return Ok(None);
    }
    let count = kinds.len() as u16;
    match mode {
        Mode::Static => {
            let invoked = run_method(
                image, natives, heap, frames, arguments, method, count, count,
            )?;
            Ok(Some(invoked))
        }
        _ => invoke_on(
            image, natives, heap, frames, arguments, count, mode, own, method,
        ),
    }
}
