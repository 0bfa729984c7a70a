ghost use Rattle.dj_asm.specs.Laws.{OneFile, OneFault, NoFileWhereFault, FileOrFault, MeansClassFile};

/// A text means one class file at most.
pub fn one_file()
    ensures { OneFile }
{}

/// A text has one first fault at most.
pub fn one_fault()
    ensures { OneFault }
{}

/// A text with a fault means no class file.
pub fn no_file_where_fault()
    ensures { NoFileWhereFault }
{}

/// A text means a class file or has a first fault.
pub fn file_or_fault()
    ensures { FileOrFault }
{}

/// The bytes that a text of at most 4,294,967,294 bytes means are a class file's (JVMS 4.1).
pub fn means_class_file()
    ensures { MeansClassFile }
{}
