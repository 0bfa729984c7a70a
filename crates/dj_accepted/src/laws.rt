ghost use Rattle.dj_accepted.specs.Laws.{AcceptedMeters, AcceptedReadBack, AreFew, AreNewsKnown, AreRewritable, HaveBase};

use dj_rewritten::{no_other_program, program_read_back};
use dj_sim::metering_theorem;
use dj_sound::{accepted_is_sound, others_ask_nothing};

/// Each class file can be rewritten.
pub fn are_rewritable()
    ensures { AreRewritable }
{}

/// The class of each `new` is one of the program's.
pub fn are_news_known()
    ensures { AreNewsKnown }
{}

/// What is read of the rewritten files is the rewritten program, which asks the host nothing.
pub fn accepted_read_back()
    ensures { AcceptedReadBack }
{
    program_read_back();
    no_other_program();
    others_ask_nothing();
}

/// The program of a job's files has no more classes than there are levels in the chain of a class.
#[tactic(auto, using(crate::proofs::Base::are_few))]
pub fn are_few()
    ensures { AreFew }
{}

/// Object stands at the top, each class is below it, and the classes are there of which the machine makes objects.
pub fn have_base()
    ensures { HaveBase }
{}

/// The plain run of the rewritten program ends as the metered run of the accepted files' program does, at the same costs.
pub fn accepted_meters()
    ensures { AcceptedMeters }
{
    metering_theorem();
    accepted_is_sound();
    others_ask_nothing();
}
