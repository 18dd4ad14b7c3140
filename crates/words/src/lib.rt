//! The words of a line, and what a word stands for: a number, bytes in hexadecimal digits, or a name.
#![tactic(auto)]

pub mod hex;
pub mod lines;
pub mod names;
pub mod numbers;
