ghost use Rattle.dj_program.specs.Laws.{OneProgram, BareIsDeclared};

/// Files without faulty parts have one program at most.
pub fn one_program()
    ensures { OneProgram }
{}

/// A program without its code and its constants is the program as its files declare it.
pub fn bare_is_declared()
    ensures { BareIsDeclared }
{}
