//! Reading the bytes of a publication: a reader that accepts exactly the layout.
#![tactic(auto)]

pub mod coverage;
mod heads;
pub mod known;
pub mod reader;
