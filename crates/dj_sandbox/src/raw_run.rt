//! The run of an image, and the report on it.
ghost use Rattle.std.specs.Prelude.{◌≡◌, ◌++◌, false, IfOk};
ghost use Rattle.dj_model.specs.Sound.{IsSound};
ghost use Rattle.dj_model.specs.Standing.{IsEntry};
ghost use Rattle.dj_report.specs.trusted.Text.{report_status};
ghost use Rattle.dj_image.specs.Imaged.{program_of};
ghost use Rattle.dj_host.specs.trusted.Hosted.{given_since};
ghost use Rattle.dj_machine.specs.trusted.Engines.{AddsRun};
ghost use Rattle.dj_machine.specs.Engines.{RunsPlainly};
ghost use Rattle.dj_class_set.specs.trusted.Limits.{most_heap_bytes};
ghost use Rattle.dj_class_set.specs.trusted.RawRules.{entry_of};
ghost use Rattle.dj_class_set.specs.trusted.Statuses.{IsAmong};
ghost use Rattle.dj_class_set.specs.Statuses.{raw_statuses};
ghost use Rattle.dj_sandbox.specs.Runs.{no_limits, is_stopped, SaysEnding};

use crate::entry::entry_in;
use dj_edge::Host;
use dj_image::Image;
use dj_machine::{Ending, Engine, EngineError};
use dj_names::Thresholds;
use dj_report::Report;
use std::alloc::Global;

// The most bytes that the objects of a run take together.
const MOST_HEAP_BYTES: u64 = 67_108_864;

// No charges are counted, so these don't matter.
const NO_LIMITS: Thresholds = Thresholds {
    alloc: 0,
    invoke: 0,
    jump: 0,
    throw: 0,
};

/// Runs the entry of the class of this name.
pub fn run_image<H: Host, E: Engine>(
    alloc: Global,
    image: &Image,
    entry: &[u8],
    input: &[u8],
    steps: u64,
    host: &mut H,
    engine: &mut E,
) -> Result<Ending, EngineError>
    requires sound { IsSound (program_of image.now) image.now.prefix }
    requires entry { IsEntry (program_of image.now) (entry_of entry.now) }
    ensures ran { IfOk result (RunsPlainly image.now (entry_of entry.now) input.now no_limits most_heap_bytes steps (given_since (H.given host.old) (H.given host.new))) }
    ensures runs { AddsRun (E.runs engine.old) (E.runs engine.new) result }
    ensures gave { H.given host.new ≡ H.given host.old ++ given_since (H.given host.old) (H.given host.new) }
{
    engine.plain(
        alloc,
        image,
        entry_in(image, entry),
        input,
        NO_LIMITS,
        MOST_HEAP_BYTES,
        steps,
        host,
    )
}

/// The report on a run that no charge stopped.
pub fn report_of(ending: Ending) -> Report
    requires { is_stopped ending.outcome ≡ false }
    ensures reported { SaysEnding ending result }
    ensures status { IsAmong (report_status result) raw_statuses }
{
    let Ending { outcome, steps, .. } = ending;
    Report::Raw { outcome, steps }
}
