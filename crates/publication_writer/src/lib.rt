//! Writing the bytes of a publication.
#![tactic(auto)]

pub mod writer;
