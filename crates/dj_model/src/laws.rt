ghost use Rattle.dj_model.specs.Laws.{CommutesWithNames, ReadsNoCode, StepCommutesWithNames, RunsCommuteWithNames, SandboxHasNames, HasFewFrames, InitialisesOnce, HasOneEnd, IsJudged, HeapsGrow, CostsStayWithin, PaysFirst, KeepsKinds, StepsAreMade, RunsStaySound, LibrariesAreSound, AnswersHaveKinds};
ghost use Rattle.dj_model.specs.SmallRuns.{WorkedRuns};

/// What an instruction does, pays and uses commutes with a map of class names, whatever the code of methods is and whatever classes come before the others.
pub fn effect_commutes_with_names()
    ensures { CommutesWithNames }
{}

/// What an instruction does, pays and uses doesn't depend on the code of methods.
pub fn effect_reads_no_code()
    ensures { ReadsNoCode }
{}

/// A step commutes with a map of class names.
pub fn step_commutes_with_names()
    ensures { StepCommutesWithNames }
{}

/// A whole plain run commutes with a map of class names.
pub fn runs_commute_with_names()
    ensures { RunsCommuteWithNames }
{}

/// The names of rewritten classes are a map of class names.
pub fn sandbox_has_names()
    ensures { SandboxHasNames }
{}

/// There are never more than 1,024 frames.
pub fn few_frames()
    ensures { HasFewFrames }
{}

/// Each class is initialised at most once, and counts as initialised from its first use on.
pub fn initialised_once()
    ensures { InitialisesOnce }
{}

/// A metered run ends in one way, at one sum of costs.
pub fn one_end()
    ensures { HasOneEnd }
{}

/// Objects keep their class, their length and their place, and the used bytes are the sum of their sizes.
pub fn heaps_grow()
    ensures { HeapsGrow }
{}

/// The sums of a metered run, and those that the accounter counts, only grow, and no sum passes its threshold but the one by which the run is stopped.
pub fn costs_stay_within()
    ensures { CostsStayWithin }
{}

/// A turn adds the charges of the next instruction or, where they were added, does it; each instruction is paid each time.
pub fn pays_first()
    ensures { PaysFirst }
{}

/// Code has shape or one fault, and which of them is decided.
pub fn shape_is_judged()
    ensures { IsJudged }
{}

/// In a sound program, what may follow an instruction finds the kinds that shape says.
pub fn keeps_kinds()
    ensures { KeepsKinds }
{}

/// A step of a sound program is made where kinds are as shape says, unless the host's answer is missing or of another kind.
pub fn steps_are_made()
    ensures { StepsAreMade }
{}

/// The frames of a run of a sound program have the kinds that shape says, and no step or turn of it is ill-formed, unless an answer of the host is missing or of another kind.
pub fn runs_stay_sound()
    ensures { RunsStaySound }
{}

/// Each library by itself is a sound program.
pub fn libraries_are_sound()
    ensures { LibrariesAreSound }
{}

/// Native methods answer with their result's kind.
pub fn answers_have_kinds()
    ensures { AnswersHaveKinds }
{}

/// The worked runs end as they should.
pub fn worked_runs()
    ensures { WorkedRuns }
{}
