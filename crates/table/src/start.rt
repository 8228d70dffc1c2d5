// The start of a table, and its stores inside it.
ghost use Rattle.std.specs.Prelude.{◌≡◌};
ghost use Rattle.table.specs.Starting.{Starts};

use crate::{NotStarted, Table};
use nodes::record::NodeRecord;
use runs::entry::{Entry, NodeRow};
use runs::store::RunStore;
use std::fmt;
use trunk::Trunk;

// The number of the refusal.
const NOT_STARTED: u32 = 12;

// A table over two stores with no live run, which means the tree of the empty path; else both are handed back.
pub fn start<E: Entry, N: RunStore<Item = NodeRow>, V: RunStore<Item = E>>(
    nodes: N,
    values: V,
) -> Result<Table<N, V>, NotStarted<N, V>>
    ensures { Starts N.Runs V.Runs nodes values result }
{
    if nodes.count() != 0 || values.count() != 0 {
        return Err(NotStarted { nodes, values });
    }
    Ok(Table {
        trunk: Trunk {
            nodes,
            values,
            root: NodeRecord::bare(),
        },
    })
}

impl<N, V> NotStarted<N, V> {
    // One of the two things that a refusal tells; a conversion would give it no name.
    pub fn number(&self) -> u32
        ensures { result ≡ 12 }
    {
        NOT_STARTED
    }
}

impl<N, V> fmt::Display for NotStarted<N, V> {
    fn fmt<W: fmt::Write>(&self, f: &mut fmt::Formatter<W>) -> fmt::Result {
        write!(f, "{}", self.number())
    }
}

impl<N: RunStore<Item = NodeRow>, V: RunStore> Table<N, V> {
    // The node store, to be looked at.
    pub fn nodes(&self) -> &N
        ensures { result.now ≡ self.now.trunk.nodes }
    {
        &self.trunk.nodes
    }

    pub fn values(&self) -> &V
        ensures { result.now ≡ self.now.trunk.values }
    {
        &self.trunk.values
    }

    // What is inside, once no more calls are to be made.
    pub fn into_trunk(self) -> Trunk<N, V>
        ensures { result ≡ self.trunk }
    {
        let Table { trunk } = self;
        trunk
    }
}
