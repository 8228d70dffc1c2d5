// A table closed: it is looked at once more, and its walk is begun and ended.
ghost use Rattle.std.specs.Prelude.{◌≡◌, [], length};
ghost use Rattle.table_model.specs.Tree.{held};
ghost use Rattle.trunk.specs.Meaning.{tree};
ghost use Rattle.trunk.specs.Promises.{Shows};

use crate::begin::begin;
use nodes::fault::Fault;
use runs::entry::{Entry, NodeRow};
use runs::store::RunStore;
use table::Table;

// The root's record, how many values the table holds, and its two stores.
pub fn close<E: Entry, N: RunStore<Item = NodeRow>, V: RunStore<Item = E>>(
    table: Table<N, V>,
) -> (Result<NodeRow, Fault>, u32, N, V)
    ensures root { Shows N.Runs V.Runs table.trunk [] result.0 }
    ensures held { result.1 ≡ held (tree N.Runs V.Runs table.trunk) }
    ensures nodes { result.2 ≡ table.trunk.nodes }
    ensures values { result.3 ≡ table.trunk.values }
{
    let root = table.show(&[]);
    let walk = begin(table);
    let (left, nodes, values) = walk.end();
    (root, left, nodes, values)
}
