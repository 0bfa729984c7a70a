ghost use Rattle.std.specs.Prelude.{◌≡◌, ◌<◌, false, length, replicate, IfOk};
ghost use Rattle.dj_natives.specs.Counting.{AreLow};
ghost use Rattle.dj_natives.specs.Known.{AreKnown};
ghost use Rattle.dj_numbering.specs.Members.{all_methods};
ghost use Rattle.dj_numbering.specs.Typed.{types_of};
ghost use Rattle.dj_image.specs.Imaged.{program_of, typed_of};
ghost use Rattle.dj_resolution.specs.Linked.{prefix_of};
ghost use Rattle.dj_initialisation.specs.Flags.{AreFlags};
ghost use Rattle.dj_initialisation.specs.Store.{IsStore};
ghost use Rattle.dj_image_step.specs.Running.{IsKept};
ghost use Rattle.dj_step.specs.Running.{BeginsRun, IsCounter, IsFirst, PreparesEntry};

use dj_heap::Heap;
use dj_image::{BaseNames, Image, MethodId};
use dj_image_step::{Run, Tables};
use dj_initialisation::{Initialised, Prepared, initialise};
use dj_member_effects::{Literals, Statics};
use dj_names::Thresholds;
use dj_natives::Accounter;
use dj_stack::Frames;
use std::alloc::{AllocError, Global};

// The run with this heap and these frames, once the entry's class is initialised.
#[tactic(auto, using(crate::proofs::FirstLaws::flags_first, crate::proofs::FirstLaws::store_first, crate::proofs::FirstLaws::begins_run))]
pub(crate) fn begin_run(
    alloc: Global,
    image: &Image,
    tables: &Tables,
    entry: MethodId,
    limits: Thresholds,
    heap: Heap,
    frames: Frames,
) -> Result<(Run, Prepared), AllocError>
    requires kept { IsKept image.now tables.now }
    requires method { entry.number < length (all_methods (program_of image.now)) }
    requires limits { AreLow limits }
    requires known { AreKnown (types_of (typed_of image.now)) heap }
    ensures { IfOk result (λ begun. BeginsRun image.now entry.number limits heap frames begun.0 begun.1) }
{
    let mut run = first_run(alloc, image, tables, limits, heap, frames)?;
    let prepared = initialise_entry(alloc, image, tables, &mut run, entry)?;
    Ok((run, prepared))
}

// Before any class is initialised.
#[tactic(auto, using(crate::proofs::FirstLaws::first_is))]
fn first_run(
    alloc: Global,
    image: &Image,
    tables: &Tables,
    limits: Thresholds,
    heap: Heap,
    frames: Frames,
) -> Result<Run, AllocError>
    requires kept { IsKept image.now tables.now }
    requires limits { AreLow limits }
    ensures { IfOk result (IsFirst image.now limits heap frames) }
{
    let flags = no_flags(alloc, image)?;
    let statics = Statics::new(alloc, tables.places().count())?;
    let literals = Literals::new(alloc, image.text_count())?;
    let accounter = counter(image, limits);
    Ok(Run {
        flags,
        statics,
        literals,
        heap,
        frames,
        accounter,
        stop: 0,
        arguments: Vec::new(alloc),
    })
}

// No class is initialised.
#[tactic(auto, using(crate::proofs::FirstLaws::as_many, dj_initialisation::proofs::StartLaws::flags_at_start))]
fn no_flags(alloc: Global, image: &Image) -> Result<Initialised, AllocError>
    ensures flags { IfOk result (λ flags. flags ≡ replicate (length (program_of image.now)) false) }
    ensures are { IfOk result (λ flags. AreFlags (program_of image.now) flags) }
{
    Initialised::new(alloc, image.linker().classes().class_count())
}

// Who counts charges: the accounter, where the classes are rewritten.
#[tactic(auto, using(crate::proofs::FirstLaws::counter_reported))]
fn counter(image: &Image, limits: Thresholds) -> Option<Accounter>
    requires { AreLow limits }
    ensures { IsCounter image.now.prefix limits result }
{
    counter_for(image.linker().base(), limits)
}

fn counter_for(base: BaseNames, limits: Thresholds) -> Option<Accounter>
    requires { AreLow limits }
    ensures { IsCounter (prefix_of base) limits result }
{
    match base {
        BaseNames::Plain => None,
        BaseNames::Sandbox => Some(Accounter::new(limits)),
    }
}

// The entry's class is initialised.
#[tactic(auto, using(crate::proofs::FirstLaws::entry_prepared, crate::proofs::FirstLaws::class_within, crate::proofs::FirstLaws::places_kept, crate::proofs::FirstLaws::initialisers_kept, crate::proofs::FirstLaws::known_after))]
fn initialise_entry(
    alloc: Global,
    image: &Image,
    tables: &Tables,
    run: &mut Run,
    entry: MethodId,
) -> Result<Prepared, AllocError>
    requires kept { IsKept image.now tables.now }
    requires method { entry.number < length (all_methods (program_of image.now)) }
    requires flags { AreFlags (program_of image.now) run.old.parts.flags }
    requires are { IsStore image.now run.old.parts.store }
    ensures prepares { IfOk result (PreparesEntry image.now entry.number run.old.parts run.new.parts) }
    ensures known { IfOk result (λ _. AreKnown (types_of (typed_of image.now)) run.old.parts.store.heap → AreKnown (types_of (typed_of image.now)) run.new.parts.store.heap) }
    ensures counter { run.new.counter ≡ run.old.counter }
    ensures stop { run.new.stop ≡ run.old.stop }
{
    let class = image.method(entry).class;
    initialise(
        alloc,
        image,
        tables.places(),
        tables.initialisers(),
        &mut run.flags,
        &mut run.statics,
        &mut run.literals,
        &mut run.heap,
        &mut run.frames,
        class,
    )
}
