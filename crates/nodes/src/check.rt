// Rows and records: a check makes a record of a row, and a record is written back as a row.
ghost use Rattle.std.specs.Prelude.{◌≡◌, MatchResult};
ghost use Rattle.table_model.specs.Table.{Passes, bare_row};
ghost use Rattle.table_model.specs.States.{with_data, with_children};
ghost use Rattle.nodes.specs.Records.{row_of};

use crate::part::Part;
use crate::record::NodeRecord;
use runs::entry::NodeRow;
use runs::index::{CellIndex, EMPTY, NodeIndex, RunIndex};

// A row that is no node's record.
#[derive(Clone, Copy, Debug, PartialEq, Eq)]
pub struct NoRecord;

// The record that a row is, if it passes.
impl TryFrom<NodeRow> for NodeRecord {
    type Error = NoRecord;

    ghost try_from_gives = { λ row r. MatchResult r (λ n. Passes row × (row_of n ≡ row)) (λ _. Passes row → ⊥) };

    fn try_from(row: NodeRow) -> Result<NodeRecord, NoRecord> {
        if row.data_bitmap >= 0x8000_0000 {
            return Err(NoRecord);
        }
        if (row.data_bitmap == 0) != (row.data_index == EMPTY) {
            return Err(NoRecord);
        }
        if (row.child_bitmap == 0) != (row.children_index == EMPTY) {
            return Err(NoRecord);
        }
        Ok(NodeRecord {
            data_bitmap: row.data_bitmap,
            child_bitmap: row.child_bitmap,
            data_index: CellIndex::at(row.data_index),
            children_index: NodeIndex::at(row.children_index),
        })
    }
}

impl From<NodeRecord> for NodeRow {
    ghost from_gives = { λ n row. row ≡ row_of n };

    fn from(n: NodeRecord) -> NodeRow {
        NodeRow {
            data_bitmap: n.data_bitmap,
            child_bitmap: n.child_bitmap,
            data_index: n.data_index.number,
            children_index: n.children_index.number,
        }
    }
}

impl NodeRecord {
    // A node with no value and no child.
    pub fn bare() -> NodeRecord
        ensures { row_of result ≡ bare_row }
    {
        NodeRecord {
            data_bitmap: 0,
            child_bitmap: 0,
            data_index: CellIndex::empty(),
            children_index: NodeIndex::empty(),
        }
    }

    // The data bitmap and the run of values. (Two functions here and two below: one would only match on which part is meant.)
    pub fn data(self) -> Part
        ensures bitmap { result.bitmap ≡ self.data_bitmap }
        ensures index { result.index ≡ self.data_index.number }
    {
        Part {
            bitmap: self.data_bitmap,
            index: self.data_index.number,
        }
    }

    // The child bitmap and the run of children.
    pub fn children(self) -> Part
        ensures bitmap { result.bitmap ≡ self.child_bitmap }
        ensures index { result.index ≡ self.children_index.number }
    {
        Part {
            bitmap: self.child_bitmap,
            index: self.children_index.number,
        }
    }

    // The row of this record with other values; it is yet to be checked.
    pub fn with_data(self, part: Part) -> NodeRow
        ensures { result ≡ with_data (row_of self) part.bitmap part.index }
    {
        NodeRow {
            data_bitmap: part.bitmap,
            data_index: part.index,
            ..NodeRow::from(self)
        }
    }

    // And with other children.
    pub fn with_children(self, part: Part) -> NodeRow
        ensures { result ≡ with_children (row_of self) part.bitmap part.index }
    {
        NodeRow {
            child_bitmap: part.bitmap,
            children_index: part.index,
            ..NodeRow::from(self)
        }
    }
}
