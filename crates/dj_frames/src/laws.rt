ghost use Rattle.dj_frames.specs.Laws.{OneStackMap, NoStackMapWhereFault, StackMapWhereNoFault, OneFault, WrittenIsStackMap, WrittenIsRead, StackMapIsWellFormed, StackMapIsBelow, MovedNowhere};

/// A body has at most one stack map.
pub fn one_stack_map()
    ensures { OneStackMap }
{}

/// A body with a fault has no stack map.
pub fn no_stack_map_where_fault()
    ensures { NoStackMapWhereFault }
{}

/// A body without a fault has a stack map.
pub fn stack_map_where_no_fault()
    ensures { StackMapWhereNoFault }
{}

/// A body has at most one first fault.
pub fn one_fault()
    ensures { OneFault }
{}

/// Well-formed frames are those of the body that is written for them.
pub fn written_is_stack_map()
    ensures { WrittenIsStackMap }
{}

/// Well-formed frames are read again from the body that is written for them.
pub fn written_is_read()
    ensures { WrittenIsRead }
{}

/// The frames of a stack map are well formed, where no instruction starts past 65,535.
pub fn stack_map_is_well_formed()
    ensures { StackMapIsWellFormed }
{}

/// Each number in the frames of a stack map is one of an instruction.
pub fn stack_map_is_below()
    ensures { StackMapIsBelow }
{}

/// Where each instruction keeps its number the frames stay as they are.
pub fn moved_nowhere()
    ensures { MovedNowhere }
{}
