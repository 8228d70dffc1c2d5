// What holds over whole histories of a table, over any two lawful stores, and over two tiered ones.
#![tactic(auto)]

ghost use Rattle.history_model.specs.Figures.{Figures};
ghost use Rattle.history_model.specs.Stands.{HistoriesStand, RoomsStand};

use runs::entry::{Entry, NodeRow};
use runs::store::RunStore;

pub fn histories_stand<E: Entry, N: RunStore<Item = NodeRow>, V: RunStore<Item = E>>()
    ensures { HistoriesStand N.Runs.model V.Runs.model N.Runs.Valid V.Runs.Valid }
{}

pub fn rooms_stand<V: Copy>()
    ensures { RoomsStand V }
{}

pub fn figures_stand()
    ensures { Figures }
{}
