//! Reading the bytes of a day sheet: a reader that accepts exactly the layout.
#![tactic(auto)]

pub mod judging;
pub mod parts;
pub mod reader;
