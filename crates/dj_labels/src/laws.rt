ghost use Rattle.dj_labels.specs.Laws.{OneLabelling, LabelledIsWellFormed, NoLabelsWhereRefused, OneFault, LabelsOrFault};

/// Code and a table have at most one labelling.
pub fn one_labelling()
    ensures { OneLabelling }
{}

/// What is labelled is well formed.
pub fn labelled_is_well_formed()
    ensures { LabelledIsWellFormed }
{}

/// Where there is a fault nothing is labelled.
pub fn no_labels_where_refused()
    ensures { NoLabelsWhereRefused }
{}

/// There is at most one first fault.
pub fn one_fault()
    ensures { OneFault }
{}

/// Bytes and a table have labels or a first fault.
pub fn labels_or_fault()
    ensures { LabelsOrFault }
{}
