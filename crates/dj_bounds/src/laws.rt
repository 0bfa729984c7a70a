ghost use Rattle.dj_bounds.specs.Laws.{MeteredIsBounded, WorkIsBounded, LimitIsIdle, FewInitialisers, LiteralsAreWithin};

/// A metered run of a sound program does and takes no more than what it has paid.
pub fn metered_is_bounded()
    ensures { MeteredIsBounded }
{}

/// Under its thresholds each run of a sound program ends, and so does the plain run of the rewritten program, in so many steps and bytes.
pub fn work_is_bounded()
    ensures { WorkIsBounded }
{}

/// Where work is bounded, a limit on the heap's bytes that the bounds don't reach makes no difference.
pub fn limit_is_idle()
    ensures { LimitIsIdle }
{}

/// No more classes of a program have an initialiser than there are files, since the library's have none.
pub fn few_initialisers()
    ensures { FewInitialisers }
{}

/// The literals of a run take no more bytes than objects of all texts of its program.
pub fn literals_are_within()
    ensures { LiteralsAreWithin }
{}
