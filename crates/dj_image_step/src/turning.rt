ghost use Rattle.std.specs.Prelude.{◌≡◌, ◌++◌, [], IfErr, IfOk};
ghost use Rattle.dj_model.specs.Standing.{AsksNothing};
ghost use Rattle.dj_host.specs.trusted.Hosted.{given_since};
ghost use Rattle.dj_image.specs.Imaged.{program_of};
ghost use Rattle.dj_image_step.specs.Memory.{NeedsNoMemory};
ghost use Rattle.dj_image_step.specs.Running.{IsKept, IsRunning, state_of, terms_of};
ghost use Rattle.dj_image_step.specs.Doing.{TurnsBy, doing_next, stepping};

use crate::acting::act_next;
use crate::calling::call;
use crate::frames::top_of;
use crate::preparing::prepare;
use crate::run::Run;
use crate::tables::Tables;
use dj_edge::Host;
use dj_image::Image;
use dj_initialisation::Prepared;
use dj_invocation::call_at;
use dj_names::Outcome;
use dj_settling::Settled;
use std::alloc::{AllocError, Global};

/// The next instruction of the top frame is done (JVMS 2.6 and 6.5).
#[inline(never)]
pub(crate) fn take_step<H: Host>(
    alloc: Global,
    image: &Image,
    tables: &Tables,
    run: &mut Run,
    host: &mut H,
) -> Result<Settled, AllocError>
    requires kept { IsKept image.now tables.now }
    requires running { IsRunning image.now run.old }
    ensures turns { IfOk result (TurnsBy image.now (stepping image.now) run.old run.new (given_since (H.given host.old) (H.given host.new))) }
    ensures gave { H.given host.new ≡ H.given host.old ++ given_since (H.given host.old) (H.given host.new) }
    ensures quiet { AsksNothing (program_of image.now) → H.given host.new ≡ H.given host.old }
    ensures frugal { NeedsNoMemory (program_of image.now) image.now.prefix (terms_of run.old) (state_of image.now [] run.old) → IfErr result (λ _. ⊥) }
{
    match prepare(alloc, image, tables, run)? {
        Prepared::Ready => perform(alloc, image, tables, run, host),
        Prepared::Waits => Ok(Settled::Went),
        Prepared::TooDeep => Ok(Settled::Ended(Outcome::TooDeep)),
        Prepared::HeapFull { used, size } => Ok(Settled::Ended(Outcome::HeapFull { used, size })),
    }
}

// The next instruction, whose class is initialised, is done.
fn perform<H: Host>(
    alloc: Global,
    image: &Image,
    tables: &Tables,
    run: &mut Run,
    host: &mut H,
) -> Result<Settled, AllocError>
    requires kept { IsKept image.now tables.now }
    requires running { IsRunning image.now run.old }
    ensures turns { IfOk result (TurnsBy image.now (doing_next image.now) run.old run.new (given_since (H.given host.old) (H.given host.new))) }
    ensures gave { H.given host.new ≡ H.given host.old ++ given_since (H.given host.old) (H.given host.new) }
    ensures quiet { AsksNothing (program_of image.now) → H.given host.new ≡ H.given host.old }
    ensures frugal { NeedsNoMemory (program_of image.now) image.now.prefix (terms_of run.old) (state_of image.now [] run.old) → IfErr result (λ _. ⊥) }
{
    let top = top_of(image, &run.frames);
    match call_at(image, top.method, top.number) {
        Some(site) => {
            let own = image.method(top.method).class;
            call(alloc, image, tables, run, host, own, site)
        }
        None => act_next(alloc, image, tables, run, top.method, top.number),
    }
}
