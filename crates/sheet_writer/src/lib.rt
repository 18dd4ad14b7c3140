//! Writing the bytes of a day sheet.
#![tactic(auto)]

pub mod writer;
