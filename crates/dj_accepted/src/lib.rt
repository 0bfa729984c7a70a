//! Laws: what the programs of accepted files have, so that the files can be rewritten and runs of the rewritten program be compared with theirs.
#![tactic(auto)]

mod laws;

pub use laws::{
    accepted_meters, accepted_read_back, are_few, are_news_known, are_rewritable, have_base,
};
