// A table over two run stores: a tree of bitmap nodes whose meaning is a plain tree.
#![tactic(auto)]

ghost use Rattle.trunk.specs.Meaning.{Sound};

pub mod calls;
pub mod start;

use runs::entry::NodeRow;
use runs::store::RunStore;
use trunk::Trunk;

// The two stores and the root's record are in the trunk.
#[derive(Drop)]
pub struct Table<N: RunStore<Item = NodeRow>, V: RunStore> {
    trunk: Trunk<N, V>,
    // the table agrees with its stores
    ghost sound: { Sound N.Runs V.Runs trunk },
}

// 12: two stores that no table can start on, as they were.
#[derive(Drop)]
pub struct NotStarted<N, V> {
    pub nodes: N,
    pub values: V,
}
