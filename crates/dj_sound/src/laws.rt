ghost use Rattle.dj_sound.specs.Laws.{HaveClassFiles, NamesRise, MembersDiffer, HaveEnds, HaveHierarchy, HaveConstants, HaveCodes, HaveBodies, AcceptedIsSound, AreLoadable, AreRawAccepted, HaveRawClassFiles, OthersAskNothing, RunsStand};

/// Files in which no rule is violated are class files.
pub fn have_class_files()
    ensures { HaveClassFiles }
{}

/// The classes of accepted files and of a library are in the order of their names, each name once.
#[tactic(auto, using(crate::proofs::Names::accepted_rise))]
pub fn names_rise()
    ensures { NamesRise }
{}

/// No two fields and no two methods of a class are declared alike.
#[tactic(auto, using(crate::proofs::Members::members_differ))]
pub fn members_differ()
    ensures { MembersDiffer }
{}

/// Upward from each class there is an end.
#[tactic(auto, using(crate::proofs::Ends::have_ends))]
pub fn have_ends()
    ensures { HaveEnds }
{}

/// Listed interfaces are interfaces, only Object is their superclass, and no class is below that of texts.
#[tactic(auto, using(crate::proofs::Hierarchy::have_hierarchy))]
pub fn have_hierarchy()
    ensures { HaveHierarchy }
{}

/// Static fields begin with constants of their kinds.
#[tactic(auto, using(crate::proofs::Constants::have_constants))]
pub fn have_constants()
    ensures { HaveConstants }
{}

/// Code has instructions, and its targets, handlers, ranges and frames are at some of them.
#[tactic(auto, using(crate::proofs::Codes::have_codes))]
pub fn have_codes()
    ensures { HaveCodes }
{}

/// Code has shape, and what its instructions and handlers name is there and is what they require.
#[tactic(auto, using(crate::proofs::Whole::have_bodies))]
pub fn have_bodies()
    ensures { HaveBodies }
{}

/// Accepted files and a library are a sound program.
#[tactic(auto, using(crate::proofs::Whole::accepted_is_sound))]
pub fn accepted_is_sound()
    ensures { AcceptedIsSound }
{}

/// The classes of accepted files and of a library load, where there is memory.
#[tactic(auto, using(crate::proofs::Loadable::are_loadable))]
pub fn are_loadable()
    ensures { AreLoadable }
{}

/// Files of which nothing is violated that is judged of a run with the raw library: they load with it, and are a sound program that
/// has the entry.
pub fn are_raw_accepted()
    ensures { AreRawAccepted }
{}

/// And they are class files.
pub fn have_raw_class_files()
    ensures { HaveRawClassFiles }
{}

/// A program of class files asks the host what its library asks, and of the libraries only the raw one asks something.
#[tactic(auto, using(crate::proofs::Asking::others_ask_nothing))]
pub fn others_ask_nothing()
    ensures { OthersAskNothing }
{}

/// No run of files that are accepted with the one library or with the other is ill-formed, but for an answer that the host doesn't give.
#[tactic(auto, using(crate::proofs::Running::runs_stand))]
pub fn runs_stand()
    ensures { RunsStand }
{}
