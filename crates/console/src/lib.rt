//! The gate console: it reads commands, a line each, and answers them.
#![tactic(auto)]

mod console;

pub use console::{Console, Outcome};
