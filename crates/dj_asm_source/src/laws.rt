ghost use Rattle.dj_asm_source.specs.Laws.{OneSource, OneWordFault, NoFaultOfSource, SourceOrFault};

/// The words of a text mean one source at most.
pub fn one_source()
    ensures { OneSource }
{}

/// A text has one first fault of its words at most.
pub fn one_word_fault()
    ensures { OneWordFault }
{}

/// A text whose words mean a source has no fault of its words.
pub fn no_fault_of_source()
    ensures { NoFaultOfSource }
{}

/// The words of a text mean a source or have a first fault.
pub fn source_or_fault()
    ensures { SourceOrFault }
{}
