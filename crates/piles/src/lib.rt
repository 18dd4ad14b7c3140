//! Six levels over an end, and the retry layer above any decider.
#![tactic(auto)]

pub mod pile;
pub mod retry;
