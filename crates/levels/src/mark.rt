ghost use Rattle.std.specs.Prelude.{◌≡◌};
ghost use Rattle.levels.specs.Marks.{mark_number, mark_in, side_mark};

use crate::Side;

/// What a pass counts as while a decider is built: for, against, or left out. Its number is the mark in the work bytes.
// An `Option<Side>` but for its number: the conversions to and from a byte need a type of this crate.
#[derive(Clone, Copy, PartialEq, Eq)]
pub enum Mark {
    Out = 0,
    For = 1,
    Against = 2,
}

impl From<Side> for Mark {
    ghost from_gives = { λ side mark. mark ≡ side_mark side };

    fn from(side: Side) -> Mark {
        match side {
            Side::For => Mark::For,
            Side::Against => Mark::Against,
        }
    }
}

impl From<Mark> for u8 {
    ghost from_gives = { λ mark n. n ≡ mark_number mark };

    fn from(mark: Mark) -> u8 {
        mark as u8
    }
}

impl From<u8> for Mark {
    ghost from_gives = { λ n mark. mark ≡ mark_in n };

    fn from(byte: u8) -> Mark {
        match byte {
            1 => Mark::For,
            2 => Mark::Against,
            _ => Mark::Out,
        }
    }
}
