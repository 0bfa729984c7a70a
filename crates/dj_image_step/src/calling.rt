ghost use Rattle.std.specs.Prelude.{◌≡◌, ◌<◌, ◌++◌, Some, List, length, IfOk};
ghost use Rattle.dj_names.specs.trusted.Types.{parameters_of};
ghost use Rattle.dj_model.specs.trusted.Types.{Member};
ghost use Rattle.dj_model.specs.trusted.Instructions as model;
ghost use Rattle.dj_model.specs.trusted.Instructions.{Invoke};
ghost use Rattle.dj_model.specs.trusted.Linking.{FoundMethod, resolve_method};
ghost use Rattle.dj_model.specs.trusted.Members.{kinds_of};
ghost use Rattle.dj_model.specs.Sound.{IsSound};
ghost use Rattle.dj_model.specs.Standing.{AsksNothing};
ghost use Rattle.dj_stack.specs.Frames.{StackFrame, top_method};
ghost use Rattle.dj_host.specs.trusted.Hosted.{given_since};
ghost use Rattle.dj_resolution.specs.Linked.{class_name};
ghost use Rattle.dj_image.specs.Imaged.{program_of};
ghost use Rattle.dj_numbering.specs.Members.{all_methods};
ghost use Rattle.dj_current_method.specs.Activations.{declared_at};
ghost use Rattle.dj_invocation.specs.Choosing.{IsMethod, reported_mode};
ghost use Rattle.dj_settling.specs.Settling.{HasOwn, IsStop};
ghost use Rattle.dj_image_step.specs.Running.{IsKept};
ghost use Rattle.dj_image_step.specs.Doing.{IsStill, TurnsBy, doing};
ghost use Rattle.dj_image_step.specs.Calling.{IsInvoked, before};

use crate::counting::exceeded;
use crate::natives::call_method;
use crate::run::Run;
use crate::tables::Tables;
use dj_edge::Host;
use dj_image::Image;
use dj_invocation::{CallSite, Invoked, invoke};
use dj_names::Outcome;
use dj_settling::{Settled, raise};
use std::alloc::{AllocError, Global};

/// A method is called in a method of the class `own`, and what follows is settled. There is no memory for a call that lacks what it takes; no sound
/// program has one.
pub(crate) fn call<H: Host>(
    alloc: Global,
    image: &Image,
    tables: &Tables,
    run: &mut Run,
    host: &mut H,
    own: u32,
    site: CallSite,
) -> Result<Settled, AllocError>
    requires kept { IsKept image.now tables.now }
    requires still { IsStill image.now run.old }
    requires some { 0 < length run.old.parts.frames }
    requires stop { IsStop image.now run.old.parts.store.heap run.old.stop }
    requires there { site.method.number < length (all_methods (program_of image.now)) }
    requires own { own < length (program_of image.now) }
    requires named { class_name (program_of image.now) own ≡ (declared_at (program_of image.now) (top_method run.old.parts.frames)).class }
    requires called { (called : model.Mode) × (m : Member) × (resolved : FoundMethod) × (reported_mode called ≡ site.mode)
        × (resolve_method (program_of image.now) image.now.prefix m ≡ Some resolved) × IsMethod (program_of image.now) site.method resolved
        × (kinds_of (parameters_of m.desc) ≡ Some site.kinds.now) }
    ensures turns { (called : model.Mode) (m : Member) (resolved : FoundMethod) → reported_mode called ≡ site.entry.mode
        → resolve_method (program_of image.now) image.now.prefix m ≡ Some resolved → IsMethod (program_of image.now) site.entry.method resolved
        → kinds_of (parameters_of m.desc) ≡ Some site.entry.kinds.now
        → IfOk result (TurnsBy image.now (doing image.now (Invoke called m)) run.old run.new (given_since (H.given host.old) (H.given host.new))) }
    ensures gave { H.given host.new ≡ H.given host.old ++ given_since (H.given host.old) (H.given host.new) }
    ensures quiet { AsksNothing (program_of image.now) → H.given host.new ≡ H.given host.old }
{
    let invoked = invoke(
        image,
        &tables.natives,
        &run.heap,
        &mut run.frames,
        &mut run.arguments,
        site.kinds,
        site.mode,
        own,
        site.method,
    )?;
    let Some(invoked) = invoked else {
        return Err(AllocError);
    };
    settle_call(alloc, image, run, host, invoked)
}

// What follows a call.
fn settle_call<H: Host>(
    alloc: Global,
    image: &Image,
    run: &mut Run,
    host: &mut H,
    invoked: Invoked,
) -> Result<Settled, AllocError>
    requires sound { IsSound (program_of image.now) image.now.prefix }
    requires own { HasOwn image.now }
    requires invoked { (old : List StackFrame) × (called : model.Mode) × (m : Member) × IsInvoked image.now old called m run.old invoked }
    ensures turns { (old : List StackFrame) (called : model.Mode) (m : Member) → IsInvoked image.now old called m run.old invoked
        → IfOk result (TurnsBy image.now (doing image.now (Invoke called m)) (before run.old old) run.new (given_since (H.given host.old) (H.given host.new))) }
    ensures gave { H.given host.new ≡ H.given host.old ++ given_since (H.given host.old) (H.given host.new) }
    ensures quiet { AsksNothing (program_of image.now) → H.given host.new ≡ H.given host.old }
{
    match invoked {
        Invoked::Entered => Ok(Settled::Went),
        Invoked::TooDeep => Ok(Settled::Ended(Outcome::TooDeep)),
        Invoked::Native(id, count) => call_method(alloc, image, run, host, id, count),
        Invoked::Raise(raised) => raise(
            alloc,
            image,
            &mut run.frames,
            &mut run.heap,
            exceeded(&run.accounter),
            raised,
        ),
        Invoked::Link => Ok(Settled::Ended(Outcome::Link)),
    }
}
