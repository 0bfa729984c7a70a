ghost use Rattle.djvm_cli.specs.OneReport.{HasOneAnswer, HasOnePrefix, HasOneReport, HasSomeReport, HasOneEnd, HasSameRuns};

/// The words and the store's contents have at most one report, under the same answers of the host.
pub fn one_report()
    ensures { HasOneReport }
{}

/// For all words and contents there is a report, under some answers of the host. That there is none is refuted.
pub fn some_report()
    ensures { HasSomeReport }
{}

/// Two finished calls with the same words on stores with the same contents write the same bytes and return the same status.
pub fn one_end()
    ensures { HasOneEnd }
{}

/// What a call wrote before the sink failed or memory ran out is a prefix of the right report's text.
pub fn one_prefix()
    ensures { HasOnePrefix }
{}

/// The host's answers matter to `raw` alone.
pub fn one_answer()
    ensures { HasOneAnswer }
{}

/// The words, the store's contents and the host's answers determine which runs the engine makes.
pub fn same_runs()
    ensures { HasSameRuns }
{}
