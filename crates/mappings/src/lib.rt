// What a node keeps in run stores of any kind: the records of its mappings, and the rows of its children.
// The entry of a bit stands at the bit's rank.
#![tactic(auto)]

ghost use Rattle.std.specs.Prelude.{◌≡◌, Some};
ghost use Rattle.bitmap.specs.Ranks.{rank, with_bit, without_bit};
ghost use Rattle.runs.specs.Lists.{nth};
ghost use Rattle.runs.specs.Refusals.{told};
ghost use Rattle.runs.specs.Runs.{no_entry, no_remove};
ghost use Rattle.runs.specs.Calls.{Tells, Called};
ghost use Rattle.mappings.specs.Mappings.{no_set, set_state, set_index};

use bitmap::{Bit, compute_slot, is_set, with_bit, without_bit};
use runs::entry::{NodeRow, StreamRecord};
use runs::fault::StoreFault;
use runs::index::{CellIndex, NodeIndex, RunIndex};
use runs::store::RunStore;

// The bits that have a mapping, and the run of their records, lowest bit first.
#[derive(Clone, Copy, Debug, PartialEq, Eq)]
pub struct Node {
    pub bitmap: u32,
    pub index: CellIndex,
}

// A record for a bit: in place of the one that is there, as the first of a run, or before the bit's rank.
pub fn set_mapping<S: RunStore<Item = StreamRecord>>(
    store: &mut S,
    node: Node,
    bit: Bit,
    stream: StreamRecord,
) -> Result<Node, StoreFault>
    ensures called { Called S.Runs.state S.Runs.memory store.old
        (no_set S.Runs.model (S.Runs.state store.old) node.bitmap node.index.number bit.number)
        (set_state S.Runs.model (S.Runs.state store.old) node.bitmap node.index.number bit.number stream)
        store.new }
    ensures answer { Tells told result (no_set S.Runs.model (S.Runs.state store.old) node.bitmap node.index.number bit.number)
        (λ n. (n.bitmap ≡ with_bit node.bitmap bit.number)
        × (n.index.number ≡ set_index S.Runs.model (S.Runs.state store.old) node.bitmap node.index.number bit.number stream)) }
{
    let slot = compute_slot(node.bitmap, bit);
    let index = if is_set(node.bitmap, bit) {
        store.exchange(node.index, slot, stream)?;
        node.index
    } else if node.bitmap == 0 {
        store.open(stream)?
    } else {
        store.insert(node.index, slot, stream)?
    };
    Ok(Node {
        bitmap: with_bit(node.bitmap, bit),
        index,
    })
}

// (This and `child_row` are like two functions of a table's parts. A node of its own, without a tree, stands on the stores alone.)
// The record of a bit is taken out; the answer is the record and the node without it.
pub fn clear_mapping<S: RunStore<Item = StreamRecord>>(
    store: &mut S,
    node: Node,
    bit: Bit,
) -> Result<(StreamRecord, Node), StoreFault>
    ensures called { Called S.Runs.state S.Runs.memory store.old
        (no_remove S.Runs.model (S.Runs.state store.old) node.index.number (rank node.bitmap bit.number))
        (S.Runs.model.removed (S.Runs.state store.old) node.index.number (rank node.bitmap bit.number))
        store.new }
    ensures answer { Tells told result (no_remove S.Runs.model (S.Runs.state store.old) node.index.number (rank node.bitmap bit.number))
        (λ x. (nth (S.Runs.model.live (S.Runs.state store.old) node.index.number) (rank node.bitmap bit.number) ≡ Some x.0)
        × (x.1.bitmap ≡ without_bit node.bitmap bit.number)
        × (x.1.index.number ≡ S.Runs.model.removed_at (S.Runs.state store.old) node.index.number (rank node.bitmap bit.number))) }
{
    let (stream, index) = store.remove(node.index, compute_slot(node.bitmap, bit))?;
    let node = Node {
        bitmap: without_bit(node.bitmap, bit),
        index,
    };
    Ok((stream, node))
}

// The row of the child at a bit, from a store of node rows.
pub fn child_row<S: RunStore<Item = NodeRow>>(
    store: &S,
    parent: NodeRow,
    bit: Bit,
) -> Result<NodeRow, StoreFault>
    ensures { Tells told result (no_entry S.Runs.model (S.Runs.state store.now) parent.children_index (rank parent.child_bitmap bit.number))
        (λ row. nth (S.Runs.model.live (S.Runs.state store.now) parent.children_index) (rank parent.child_bitmap bit.number) ≡ Some row) }
{
    let at = NodeIndex::at(parent.children_index);
    store.entry(at, compute_slot(parent.child_bitmap, bit))
}
