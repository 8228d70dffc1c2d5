// Who looks on while a history is played.
use crate::call::Answer;
use nodes::fault::Fault;
use runs::entry::{Entry, NodeRow};
use runs::store::RunStore;
use table::Table;

// The table is only lent, so that nothing but the history's calls can change it.
pub trait Watch<E: Entry, N: RunStore<Item = NodeRow>, V: RunStore<Item = E>> {
    // Sees each answer as it is given, and the table that the call leaves.
    fn see(&mut self, table: &Table<N, V>, answer: &Result<Answer<E>, Fault>);
}
