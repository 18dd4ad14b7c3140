//! Passes: their written forms, the order of forms, and the three kinds of identifier.
#![tactic(auto)]

pub mod chip;
pub mod form;
pub mod identifier;
pub mod kind;
pub mod order;
pub mod reading;
pub mod tag;
