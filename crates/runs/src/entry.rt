// The kinds of entry.
ghost use Rattle.std.specs.Prelude.{◌≡◌, ℕ, ◌≤◌};
ghost use Rattle.std.proofs.Common.{lit≤};
ghost use Rattle.runs.specs.Sizes.{size};

use crate::capacity::run_size;
use crate::index::{CellIndex, EMPTY, NodeIndex, RunIndex};
use std::fmt;
use std::num::ParseIntError;
use std::str::FromStr;

// A kind of entry: how many entries its longest run has, and what names a run.
pub trait Entry: Copy {
    const LONGEST: u32;

    type Index: RunIndex;

    ghost LONGEST: { ℕ };

    ghost wide: { 31 ≤ LONGEST };

    ghost narrow: { LONGEST ≤ 32 };

    // The size of a run of n entries; 0 where no run is so long, as in the definition: who asks compares sizes, and nothing else.
    final fn size(n: u32) -> u32
        ensures { result ≡ size LONGEST n }
    {
        run_size(Self::LONGEST, n)
    }
}

// A stream's mapping: where it goes, and how fast it comes.
#[derive(Clone, Copy, Debug, PartialEq, Eq, Default)]
pub struct StreamRecord {
    pub output: u16,
    pub queue: u8,
    // packets a second
    pub rate: u32,
}

// As a script has it: output/queue/rate.
impl fmt::Display for StreamRecord {
    fn fmt<W: fmt::Write>(&self, f: &mut fmt::Formatter<W>) -> fmt::Result {
        write!(f, "{}/{}/{}", self.output, self.queue, self.rate)
    }
}

// A text that is no stream record.
#[derive(Clone, Copy, Debug, PartialEq, Eq)]
pub struct NoStream;

impl From<ParseIntError> for NoStream {
    fn from(_: ParseIntError) -> NoStream {
        NoStream
    }
}

impl FromStr for StreamRecord {
    type Err = NoStream;

    fn from_str(s: &str) -> Result<StreamRecord, NoStream> {
        let (output, rest) = s.split_once('/').ok_or(NoStream)?;
        let (queue, rate) = rest.split_once('/').ok_or(NoStream)?;
        Ok(StreamRecord {
            output: output.parse()?,
            queue: queue.parse()?,
            rate: rate.parse()?,
        })
    }
}

// A node's record as the cells hold it: two bitmaps and the indexes of the two runs.
#[derive(Clone, Copy, Debug, PartialEq, Eq)]
pub struct NodeRow {
    pub data_bitmap: u32,
    pub child_bitmap: u32,
    pub data_index: u32,
    pub children_index: u32,
}

// The bitmaps and the indexes, of the values and of the children.
impl fmt::Display for NodeRow {
    fn fmt<W: fmt::Write>(&self, f: &mut fmt::Formatter<W>) -> fmt::Result {
        let values = CellIndex::at(self.data_index);
        let children = NodeIndex::at(self.children_index);
        write!(
            f,
            "{} {} {values} {children}",
            self.data_bitmap, self.child_bitmap
        )
    }
}

// A node with no value and no child.
impl Default for NodeRow {
    ghost use Rattle.runs.specs.Lists.{empty};

    ghost is_default = { λ r. r ≡ record { data_bitmap = 0; child_bitmap = 0; data_index = empty; children_index = empty } };

    fn default() -> NodeRow {
        NodeRow {
            data_bitmap: 0,
            child_bitmap: 0,
            data_index: EMPTY,
            children_index: EMPTY,
        }
    }
}

impl Entry for u32 {
    const LONGEST: u32 = 31;

    type Index = CellIndex;

    ghost LONGEST = { 31 };

    ghost wide = { lit≤ tt };

    ghost narrow = { lit≤ tt };
}

impl Entry for StreamRecord {
    const LONGEST: u32 = 31;

    type Index = CellIndex;

    ghost LONGEST = { 31 };

    ghost wide = { lit≤ tt };

    ghost narrow = { lit≤ tt };
}

impl Entry for NodeRow {
    const LONGEST: u32 = 32;

    type Index = NodeIndex;

    ghost LONGEST = { 32 };

    ghost wide = { lit≤ tt };

    ghost narrow = { lit≤ tt };
}
