ghost use Rattle.dj_sim_sound.specs.Laws.{RewrittenIsSound};

/// The rewritten program of a sound program is sound, asks the host nothing where the program doesn't, and has the program's entry under its other name.
pub fn rewritten_is_sound()
    ensures { RewrittenIsSound }
{}
