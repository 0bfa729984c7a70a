ghost use Rattle.dj_write.specs.Laws.{FileOfView, ViewOfFile};

/// What is written of a view that was read is what it was read from.
pub fn file_of_view()
    ensures { FileOfView }
{}

/// Reading what was written of a valid class file gives an equal view, or memory ran out.
pub fn view_of_file()
    ensures { ViewOfFile }
{}
