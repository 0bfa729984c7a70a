ghost use Rattle.dj_straight.specs.SmallRuns.{WorkedRuns};
ghost use Rattle.dj_straight.specs.Laws.{HasOneEnd, KeepsKinds, IsSameInEveryProgram, HasOneShapeFault, HasNoFaultWithShape, HasShapeOrFault, StraightCodeEnds};

/// A run ends in one way, at one cost.
pub fn one_end()
    ensures { HasOneEnd }
{}

/// An instruction that needs nothing of the program and finds the kinds that it takes has an effect, and leaves the kinds that it leaves.
pub fn sound_effect()
    ensures { KeepsKinds }
{}

/// What an instruction that needs nothing of the program does, and what it is charged, is the same in every program.
pub fn same_in_every_program()
    ensures { IsSameInEveryProgram }
{}

/// Code without shape is reported in one way.
pub fn one_shape_fault()
    ensures { HasOneShapeFault }
{}

/// Code with shape is not reported.
pub fn no_fault_with_shape()
    ensures { HasNoFaultWithShape }
{}

/// No code is without shape and without a fault.
pub fn shape_or_fault()
    ensures { HasShapeOrFault }
{}

/// The run of straight code with shape ends.
pub fn straight_code_ends()
    ensures { StraightCodeEnds }
{}

/// The worked runs end as they should.
pub fn worked_runs()
    ensures { WorkedRuns }
{}
