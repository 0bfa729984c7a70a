ghost use Rattle.dj_sim.specs.Laws.{Initialises, Begins, Acts, Pays, Stops, KeepsWaiting, Counts, Limits, SoundActs, SoundPays, KeepsBelow, MeteringTheorem, LimitedEnds};

/// The rewritten program initialises a class as the program does.
pub fn initialises()
    ensures { Initialises }
{}

/// The plain run of the rewritten program begins as the metered run does.
pub fn begins()
    ensures { Begins }
{}

/// An instruction that is paid is one step of the rewritten program.
pub fn act()
    ensures { Acts }
{}

/// What is inserted before an instruction adds its charges.
pub fn pays()
    ensures { Pays }
{}

/// The object that stops a run leaves all frames.
pub fn stops()
    ensures { Stops }
{}

/// Each frame that waits for one that isn't an initialiser's stays paid.
pub fn waiting_paid()
    ensures { KeepsWaiting }
{}

/// A step where the accounter counts is the step where the run counts, but for an end by a charge.
pub fn counting()
    ensures { Counts }
{}

/// With a limit on the heap's bytes a run goes as without one, or the heap is full.
pub fn limits()
    ensures { Limits }
{}

/// In a sound program, frames that have the kinds that shape says meet what `act` asks.
pub fn sound_act()
    ensures { SoundActs }
{}

/// In a sound program, frames that have the kinds that shape says meet what `pays` asks.
pub fn sound_pays()
    ensures { SoundPays }
{}

/// In a sound program the class of each object of a metered run is below Object.
pub fn objects()
    ensures { KeepsBelow }
{}

/// The plain run of the rewritten program ends as the metered run of the program does, at the same costs.
pub fn metering_theorem()
    ensures { MeteringTheorem }
{}

/// Under a limit on the heap's bytes that isn't passed, the plain run of the rewritten program ends as the metered run does.
pub fn limited_ends()
    ensures { LimitedEnds }
{}
