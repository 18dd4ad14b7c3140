//! Levels of filters over any decider, and the end below them.
#![tactic(auto)]

ghost use Rattle.std.specs.Prelude.{◌≡◌};
ghost use Rattle.levels.specs.Deciders.{other};

use std::ops::Not;

pub mod decider;
pub mod end;
pub mod level;
pub mod mark;
pub mod marked;
pub mod tables;

/// The side of an identifier in a decider.
#[derive(Clone, Copy, PartialEq, Eq)]
pub enum Side {
    For,
    Against,
}

/// The other side.
impl Not for Side {
    type Output = Side;

    ghost not_gives = { λ side r. r ≡ other side };

    fn not(self) -> Side {
        match self {
            Side::For => Side::Against,
            Side::Against => Side::For,
        }
    }
}

/// An identifier with its side.
#[derive(Clone, Copy)]
pub struct Entry<I> {
    pub id: I,
    pub side: Side,
}
