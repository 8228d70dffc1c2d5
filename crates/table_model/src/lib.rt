// What the calls on a table make of the plain tree that it means, over any two lawful stores.
#![tactic(auto)]

ghost use Rattle.table_model.specs.Stands.{Calls};
ghost use Rattle.table_model.specs.Laws.{ShowLaw, PlainLaw, StopLaw};

use runs::entry::{Entry, NodeRow};
use runs::store::RunStore;

// Every call leads from a sound table to a sound one that means the plain tree's result.
pub fn calls_stand<E: Entry, N: RunStore<Item = NodeRow>, V: RunStore<Item = E>>()
    ensures { Calls N.Runs.model V.Runs.model N.Runs.Valid V.Runs.Valid }
{}

pub fn show_stands<V: Copy>()
    ensures { ShowLaw V }
{}

pub fn plain_stands<V: Copy>()
    ensures { PlainLaw V }
{}

pub fn stop_stands<V: Copy>()
    ensures { StopLaw V }
{}
