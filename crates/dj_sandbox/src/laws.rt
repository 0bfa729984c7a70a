ghost use Rattle.dj_sandbox.specs.Laws.{HasRawRun, NeverStopped};

/// Under some answers of the host, all of which it takes, a run of files in which no rule is violated ends or makes all of its steps.
pub fn has_raw_run()
    ensures { HasRawRun }
{}

/// No charge stops a plain run in which no charges are counted.
#[tactic(auto, using(crate::proofs::Unstopped::never_stopped))]
pub fn never_stopped()
    ensures { NeverStopped }
{}
