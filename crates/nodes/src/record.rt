// The node record. Cells hold plain rows; a record is a row that has passed the check.
ghost use Rattle.std.specs.Prelude.{◌^◌, ◌<◌};
ghost use Rattle.table_model.specs.Table.{Tied};

use runs::index::{CellIndex, NodeIndex};

#[derive(Clone, Copy)]
pub struct NodeRecord {
    pub data_bitmap: u32,
    pub child_bitmap: u32,
    pub data_index: CellIndex,
    pub children_index: NodeIndex,
    // data bits are 0 to 30
    ghost low: { data_bitmap < 2 ^ 31 },
    // each index is empty exactly when its bitmap is zero
    ghost data_tied: { Tied data_bitmap data_index.number },
    ghost children_tied: { Tied child_bitmap children_index.number },
}
