// How a history goes on after its calls, and what it leaves.
ghost use Rattle.std.specs.Prelude.{◌≡◌};
ghost use Rattle.history.specs.Last.{asked};

use crate::call::Answer;
use bitmap::Bit;
use nodes::fault::Fault;
use runs::entry::NodeRow;
use runs::store::RunStore;
use table::{NotStarted, Table};
use walk::Walk;

// The table stays; or it is walked by so many nexts, and the walk is left standing, or ended.
#[derive(Clone, Copy, Debug, PartialEq, Eq)]
pub enum Last {
    Stay,
    Walk(usize),
    End(usize),
}

impl Last {
    // How many nexts are asked for.
    pub fn nexts(self) -> usize
        ensures { result ≡ asked self }
    {
        match self {
            Last::Stay => 0,
            Last::Walk(nexts) | Last::End(nexts) => nexts,
        }
    }
}

#[derive(Drop)]
pub enum Left<N: RunStore<Item = NodeRow>, V: RunStore> {
    Table(Table<N, V>),
    Walk(Walk<N, V>),
    // how many values were not handed out, and both stores
    Ended(u32, N, V),
}

// What a history has told, and what it leaves.
#[derive(Drop)]
pub struct Played<N: RunStore<Item = NodeRow>, V: RunStore> {
    pub answers: Vec<Result<Answer<V::Item>, Fault>>,
    pub nexts: Vec<Option<(Bit, V::Item)>>,
    pub left: Left<N, V>,
}

// No history was played, and both stores come back as they were.
#[derive(Drop)]
pub enum NoHistory<N, V> {
    // there is no memory for the answers
    NoMemory(N, V),
    // 12: no table can start on them
    NotStarted(NotStarted<N, V>),
}
