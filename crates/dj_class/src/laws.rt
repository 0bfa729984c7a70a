ghost use Rattle.dj_class.specs.Laws.{OneClassFile, OneFault, FaultyIsMalformed, EachClassOrFault, OneCode, OneCodeFault, FaultyIsNoCode, EachCodeOrFault, ValidHasTexts};

/// Bytes are at most one class file.
pub fn one_class_file()
    ensures { OneClassFile }
{}

/// Bytes have at most one first fault.
pub fn one_fault()
    ensures { OneFault }
{}

/// A file with a fault is no class file.
pub fn faulty_is_malformed()
    ensures { FaultyIsMalformed }
{}

/// A file is a class file, or it has a fault.
pub fn class_or_fault()
    ensures { EachClassOrFault }
{}

/// A body is at most one Code attribute's.
pub fn one_code()
    ensures { OneCode }
{}

/// A body has at most one first fault.
pub fn one_code_fault()
    ensures { OneCodeFault }
{}

/// A body with a fault is no Code attribute's.
pub fn faulty_is_no_code()
    ensures { FaultyIsNoCode }
{}

/// A body is a Code attribute's, or it has a fault.
pub fn code_or_fault()
    ensures { EachCodeOrFault }
{}

/// The texts that a valid class file names are there.
pub fn valid_has_texts()
    ensures { ValidHasTexts }
{}
