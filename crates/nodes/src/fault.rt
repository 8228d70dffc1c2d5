// What a table refuses.
ghost use Rattle.std.specs.Prelude.{◌≡◌};
ghost use Rattle.nodes.specs.declared.fault.Fault.TheVariants.{Path};
ghost use Rattle.nodes.specs.Told.{told_path, told_fault};

use runs::fault::StoreFault;
use std::error::Error;
use std::fmt;

#[derive(Clone, Copy, Debug, PartialEq, Eq)]
pub enum PathFault {
    // 1: the path is longer than 25
    TooLong,
    // 2: a byte is above 31; the position of the first
    Byte(u32),
}

#[derive(Clone, Copy, Debug, PartialEq, Eq)]
pub enum Fault {
    Path(PathFault),
    // 3: a data bit above 30, or a child bit above 31
    BadBit,
    // 4: no node on the path; how many child bits were followed
    NoNode(u32),
    // 5: no child can be below a path of 25
    TooDeep,
    // 6: a value or a child is there already
    Taken,
    // 7: nothing is there
    Missing,
    // 8: the child has a value or a child
    NotBare,
    // 9: the node store says no
    Nodes(StoreFault),
    // 10: the value store says no
    Values(StoreFault),
}

impl PathFault {
    // One of the two things that a refusal tells; a conversion would give it no name.
    pub fn number(self) -> u32
        ensures { result ≡ (told_path self).number }
    {
        match self {
            PathFault::TooLong => 1,
            PathFault::Byte(_) => 2,
        }
    }
}

// The number, and the position of the byte where one is told.
impl fmt::Display for PathFault {
    fn fmt<W: fmt::Write>(&self, f: &mut fmt::Formatter<W>) -> fmt::Result {
        match self {
            PathFault::TooLong => write!(f, "{}", self.number()),
            PathFault::Byte(position) => write!(f, "{} {position}", self.number()),
        }
    }
}

impl Error for PathFault {}

impl Fault {
    // One of the two things that a refusal tells; a conversion would give it no name.
    pub fn number(self) -> u32
        ensures { result ≡ (told_fault self).number }
    {
        match self {
            Fault::Path(f) => f.number(),
            Fault::BadBit => 3,
            Fault::NoNode(_) => 4,
            Fault::TooDeep => 5,
            Fault::Taken => 6,
            Fault::Missing => 7,
            Fault::NotBare => 8,
            Fault::Nodes(_) => 9,
            Fault::Values(_) => 10,
        }
    }
}

// The number, and what it carries: the count of child bits followed, or a store's own refusal.
impl fmt::Display for Fault {
    fn fmt<W: fmt::Write>(&self, f: &mut fmt::Formatter<W>) -> fmt::Result {
        match self {
            Fault::Path(fault) => write!(f, "{fault}"),
            Fault::NoNode(followed) => write!(f, "{} {followed}", self.number()),
            Fault::Nodes(fault) | Fault::Values(fault) => write!(f, "{} {fault}", self.number()),
            _ => write!(f, "{}", self.number()),
        }
    }
}

impl Error for Fault {}

impl From<PathFault> for Fault {
    ghost from_gives = { λ e r. r ≡ Path e };

    fn from(e: PathFault) -> Fault {
        Fault::Path(e)
    }
}
