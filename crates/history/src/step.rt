// One call of a history.
ghost use Rattle.history.specs.Calls.{Steps};

use crate::call::{Answer, Call};
use nodes::fault::Fault;
use runs::entry::{Entry, NodeRow};
use runs::store::RunStore;
use table::Table;

// The call made, and its answer.
pub fn step<E: Entry, N: RunStore<Item = NodeRow>, V: RunStore<Item = E>>(
    table: &mut Table<N, V>,
    call: &Call<'_, E>,
) -> Result<Answer<E>, Fault>
    ensures { Steps N.Runs V.Runs table.old.trunk call.now result table.new.trunk }
{
    match call {
        Call::Get(path, bit) => Ok(Answer::Value(table.get(path, *bit)?)),
        Call::Put(path, bit, value) => {
            table.put(path, *bit, *value)?;
            Ok(Answer::Done)
        }
        Call::Swap(path, bit, value) => Ok(Answer::Value(table.swap(path, *bit, *value)?)),
        Call::Take(path, bit) => Ok(Answer::Value(table.take(path, *bit)?)),
        Call::Add(path, bit) => {
            table.add(path, *bit)?;
            Ok(Answer::Done)
        }
        Call::Plant(path, bit, value) => {
            table.plant(path, *bit, *value)?;
            Ok(Answer::Done)
        }
        Call::Drop(path, bit) => {
            table.drop(path, *bit)?;
            Ok(Answer::Done)
        }
        Call::Show(path) => Ok(Answer::Node(table.show(path)?)),
    }
}
