// What names a run. A run of values is named by a cell index, a run of node rows by a node index.
ghost use Rattle.std.specs.Prelude.{◌≡◌, ℕ, ◌==◌};
ghost use Rattle.runs.specs.Lists.{empty};

use std::fmt;

// The number that names no run. It is a number and no case of its own: a record in a cell has 32 bits for an index.
pub const EMPTY: u32 = u32::MAX;

// A number that names a run, or the empty one.
pub trait RunIndex: Copy {
    ghost number: { Self → ℕ };

    fn at(n: u32) -> Self
        ensures { number result ≡ n };

    fn number(self) -> u32
        ensures { result ≡ number self };

    // Names no run.
    final fn empty() -> Self
        ensures { number result ≡ empty }
    {
        Self::at(EMPTY)
    }

    final fn is_empty(self) -> bool
        ensures { result ≡ (number self == empty) }
    {
        self.number() == EMPTY
    }
}

// Two types, so that an index of one kind of run can't stand in for one of another. They can't be one struct over the kind: "it calls
// what has the bound `Index<Values>: Clone`, written or implied, which a generic impl meets, and that is not supported yet".
#[derive(Clone, Copy, Debug, PartialEq, Eq)]
pub struct CellIndex {
    pub number: u32,
}

#[derive(Clone, Copy, Debug, PartialEq, Eq)]
pub struct NodeIndex {
    pub number: u32,
}

impl RunIndex for CellIndex {
    ghost number = { λ i. i.number };

    fn at(n: u32) -> CellIndex {
        CellIndex { number: n }
    }

    fn number(self) -> u32 {
        let CellIndex { number } = self;
        number
    }
}

impl RunIndex for NodeIndex {
    ghost number = { λ i. i.number };

    fn at(n: u32) -> NodeIndex {
        NodeIndex { number: n }
    }

    fn number(self) -> u32 {
        let NodeIndex { number } = self;
        number
    }
}

// The number, or - where no run is named.
fn write_index<I: RunIndex, W: fmt::Write>(index: I, f: &mut fmt::Formatter<W>) -> fmt::Result {
    if index.is_empty() {
        write!(f, "-")
    } else {
        write!(f, "{}", index.number())
    }
}

impl fmt::Display for CellIndex {
    fn fmt<W: fmt::Write>(&self, f: &mut fmt::Formatter<W>) -> fmt::Result {
        write_index(*self, f)
    }
}

impl fmt::Display for NodeIndex {
    fn fmt<W: fmt::Write>(&self, f: &mut fmt::Formatter<W>) -> fmt::Result {
        write_index(*self, f)
    }
}
