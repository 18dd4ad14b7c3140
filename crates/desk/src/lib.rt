//! What the console holds, and the commands on it.
#![tactic(auto)]

mod altering;
mod any_levels;
mod arguments;
mod buffers;
mod bytes;
mod chips;
mod commands;
mod composing;
mod contents;
mod desk;
mod draft;
mod faults;
mod filtering;
mod hashing;
mod kinds;
mod leveling;
mod line;
mod numbers;
mod pass;
mod plans;
mod register;
mod registering;
mod saving;
mod shown;
mod span;

pub use desk::Desk;
