ghost use Rattle.dj_rewritten.specs.Laws.{ClassReadBack, NoFaultyMethods, ProgramReadBack, NoOtherProgram};

use dj_frames::{stack_map_is_well_formed, written_is_stack_map};

/// What is read of a rewritten class file is the rewritten class.
pub fn class_read_back()
    ensures { ClassReadBack }
{
    written_is_stack_map();
    stack_map_is_well_formed();
}

/// No method of a rewritten class file is faulty.
pub fn no_faulty_methods()
    ensures { NoFaultyMethods }
{}

/// Rewritten files are, with the library of rewritten classes, the rewritten program.
pub fn program_read_back()
    ensures { ProgramReadBack }
{
    written_is_stack_map();
    stack_map_is_well_formed();
}

/// They are no other program.
pub fn no_other_program()
    ensures { NoOtherProgram }
{
    written_is_stack_map();
    stack_map_is_well_formed();
}
