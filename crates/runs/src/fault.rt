// What a store refuses, and what memory it is not made of. docs/REFUSALS.md has all the numbers.
ghost use Rattle.std.specs.Prelude.{◌≡◌};
ghost use Rattle.runs.specs.Lists.{nth};
ghost use Rattle.runs.specs.Refusals.{told, told_lent};

use std::error::Error;
use std::fmt;

#[derive(Clone, Copy, Debug, PartialEq, Eq)]
pub enum StoreFault {
    // 20: no run is live at the index
    NotLive,
    // 21: the slot is beyond its range
    BadSlot,
    // 22: the run is at its longest
    AtLongest,
    // 23: no group can be had; the layers crossed
    NoGroup(u32),
    // 24: a limit is reached; the layers crossed
    LimitReached(u32),
}

impl StoreFault {
    // One of the two things that a refusal tells; a conversion would give it no name.
    pub fn number(self) -> u32
        ensures { result ≡ (told self).number }
    {
        match self {
            StoreFault::NotLive => 20,
            StoreFault::BadSlot => 21,
            StoreFault::AtLongest => 22,
            StoreFault::NoGroup(_) => 23,
            StoreFault::LimitReached(_) => 24,
        }
    }

    // The layers crossed, for the two refusals that count them.
    pub fn layers(self) -> Option<u32>
        ensures { result ≡ nth (told self).carries 0 }
    {
        match self {
            StoreFault::NoGroup(n) | StoreFault::LimitReached(n) => Some(n),
            _ => None,
        }
    }
}

// The number, and the layers crossed where they are counted.
impl fmt::Display for StoreFault {
    fn fmt<W: fmt::Write>(&self, f: &mut fmt::Formatter<W>) -> fmt::Result {
        match self.layers() {
            Some(layers) => write!(f, "{} {layers}", self.number()),
            None => write!(f, "{}", self.number()),
        }
    }
}

impl Error for StoreFault {}

#[derive(Clone, Copy, Debug, PartialEq, Eq)]
pub enum LentFault {
    // 11: ledger and cells differ in length, or exceed 16,777,216
    Lengths,
}

impl LentFault {
    // One of the two things that a refusal tells; a conversion would give it no name.
    pub fn number(self) -> u32
        ensures { result ≡ (told_lent self).number }
    {
        match self {
            LentFault::Lengths => 11,
        }
    }
}

impl fmt::Display for LentFault {
    fn fmt<W: fmt::Write>(&self, f: &mut fmt::Formatter<W>) -> fmt::Result {
        write!(f, "{}", self.number())
    }
}

impl Error for LentFault {}
