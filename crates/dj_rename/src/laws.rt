ghost use Rattle.dj_rename.specs.Laws.{ClassesInSandbox, DescsInSandbox, PlainUndoes, TextsAreJudged};

/// A class's renamed text names the type in the package.
pub fn classes_in_sandbox()
    ensures { ClassesInSandbox }
{}

/// A renamed descriptor has the types in the package.
pub fn descs_in_sandbox()
    ensures { DescsInSandbox }
{}

/// A renamed text without the package's name is the text.
pub fn plain_undoes()
    ensures { PlainUndoes }
{}

/// Where a text can't be appended the rewritten class doesn't fit; where all can, none is too long.
pub fn texts_are_judged()
    ensures { TextsAreJudged }
{}
