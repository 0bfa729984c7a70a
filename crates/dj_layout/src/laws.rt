ghost use Rattle.dj_layout.specs.Laws.{OneLayout, LabelsAgain, NoCodeWhereRefused, OneFault, LayoutOrFault};

/// Labelled code is laid out in at most one way.
pub fn one_layout()
    ensures { OneLayout }
{}

/// The labels of what was laid out are the code again.
pub fn labels_again()
    ensures { LabelsAgain }
{}

/// Where there is a fault no code of at most 65,535 bytes has these labels.
pub fn no_code_where_refused()
    ensures { NoCodeWhereRefused }
{}

/// There is at most one first fault.
pub fn one_fault()
    ensures { OneFault }
{}

/// Well-formed code has a layout or a first fault.
pub fn layout_or_fault()
    ensures { LayoutOrFault }
{}
