// Where a node's record stands, and the record.
use bitmap::Slot;
use nodes::record::NodeRecord;
use runs::index::NodeIndex;

// An entry of the parent's run of children.
#[derive(Clone, Copy, Debug, PartialEq, Eq)]
pub struct Place {
    pub run: NodeIndex,
    pub slot: Slot,
}

// The root stands in no run, and so has no place.
#[derive(Clone, Copy)]
pub struct Spot {
    pub place: Option<Place>,
    pub node: NodeRecord,
}
