// A step in two parts: the first finds out little and needs no memory, so that an instruction that names nothing is done at once.
ghost use Rattle.std.specs.Prelude.{◌≡◌, ◌++◌, [], IfErr, IfOk};
ghost use Rattle.dj_model.specs.Sound.{IsSound};
ghost use Rattle.dj_model.specs.Standing.{AsksNothing};
ghost use Rattle.dj_image.specs.Imaged.{program_of};
ghost use Rattle.dj_host.specs.trusted.Hosted.{given_since};
ghost use Rattle.dj_image_effects.specs.declared.begun.Begun.TheVariants as begins;
ghost use Rattle.dj_image_step.specs.Begun.{Begins, IsBegun, IsFrugalBegun, IsLeft};
ghost use Rattle.dj_image_step.specs.Frugal.{IsFrugalRun};
ghost use Rattle.dj_image_step.specs.Running.{IsKept, IsRunning, Running};
ghost use Rattle.dj_image_step.specs.Doing.{TurnsBy, stepping};
ghost use Rattle.dj_image_step.specs.Turning.{MakesStep};

use crate::acting::settle_acted;
use crate::counting::exceeded;
use crate::frames::top_of;
use crate::run::Run;
use crate::tables::Tables;
use crate::turning::take_step;
use dj_current_method::instr_of;
use dj_edge::Host;
use dj_image::Image;
use dj_image_effects::{Acted, Begun, begin, unnamed_action};
use dj_settling::Settled;
use std::alloc::{AllocError, Global};

/// The first part of a step: the next instruction of the top frame is done at once, where it names nothing and makes and throws no object.
#[inline(always)]
pub fn begin_turn(image: &Image, run: &mut Run) -> Begun
    requires sound { IsSound (program_of image.now) image.now.prefix }
    requires running { IsRunning image.now run.old }
    ensures begins { Begins image.now run.old run.new result }
    ensures begun { IsBegun image.now run.new result }
    ensures frugal { IsFrugalRun image.now run.old → IsFrugalBegun image.now run.new result }
{
    let top = top_of(image, &run.frames);
    match unnamed_action(instr_of(image, top.method, top.number)) {
        Some(action) => begin(image, &mut run.frames, &mut run.heap, action, top.number),
        None => Begun::Nothing,
    }
}

/// The rest of a step of which so much was done.
#[tactic(auto, using(crate::proofs::HostLaws::still_given))]
#[inline(never)]
pub fn end_turn<H: Host>(
    alloc: Global,
    image: &Image,
    tables: &Tables,
    run: &mut Run,
    host: &mut H,
    begun: Begun,
) -> Result<Settled, AllocError>
    requires kept { IsKept image.now tables.now }
    requires begun { IsBegun image.now run.old begun }
    ensures turns { (first : Running) → IsRunning image.now first → Begins image.now first run.old begun → IfOk result (MakesStep image.now first run.new (given_since (H.given host.old) (H.given host.new))) }
    ensures gave { H.given host.new ≡ H.given host.old ++ given_since (H.given host.old) (H.given host.new) }
    ensures quiet { AsksNothing (program_of image.now) → H.given host.new ≡ H.given host.old }
    ensures frugal { IsFrugalBegun image.now run.old begun → IfErr result (λ _. ⊥) }
{
    match begun {
        Begun::Went => Ok(Settled::Went),
        Begun::Nothing => take_step(alloc, image, tables, run, host),
        Begun::Left(acted) => settle_left(alloc, image, tables, run, acted),
    }
}

// What follows an instruction that was done.
fn settle_left(
    alloc: Global,
    image: &Image,
    tables: &Tables,
    run: &mut Run,
    acted: Acted,
) -> Result<Settled, AllocError>
    requires kept { IsKept image.now tables.now }
    requires left { IsBegun image.now run.old (begins.Left acted) }
    ensures turns { (first : Running) → IsRunning image.now first → IsLeft image.now first run.old acted → IfOk result (TurnsBy image.now (stepping image.now) first run.new []) }
    ensures frugal { (first : Running) → IsRunning image.now first → IsLeft image.now first run.old acted → IsFrugalRun image.now first → IfErr result (λ _. ⊥) }
{
    let charge = exceeded(&run.accounter);
    settle_acted(alloc, image, &mut run.frames, &mut run.heap, charge, acted)
}
