ghost use Rattle.dj_groups.specs.Laws.{StandsInGroup, InPieces, GroupedIsWellFormed, ProgramRewritten};

/// Each part of a group stands at its place after the group's start.
pub fn stands_in_group()
    ensures { StandsInGroup }
{}

/// A range keeps its instructions' groups, but for what is inserted before the first instruction of a handler.
pub fn in_pieces()
    ensures { InPieces }
{}

/// Labelled code in groups is well formed.
pub fn grouped_is_well_formed()
    ensures { GroupedIsWellFormed }
{}

/// The rewritten classes and the library of rewritten classes are the rewritten program.
pub fn program_rewritten()
    ensures { ProgramRewritten }
{}
