// The calls of a history, one after the other.
ghost use Rattle.std.specs.Prelude.{◌≡◌, ◌≤◌, [], length, map, vec_capacity};
ghost use Rattle.history.specs.Calls.{call_of, told};
ghost use Rattle.history.specs.Plays.{Plays};

use crate::call::{Answer, Call};
use crate::step::step;
use crate::watch::Watch;
use nodes::fault::Fault;
use runs::entry::{Entry, NodeRow};
use runs::store::RunStore;
use table::Table;

// The answers have their room beforehand, so that no call is made whose answer can't be kept.
pub(crate) fn play<E: Entry, N: RunStore<Item = NodeRow>, V: RunStore<Item = E>, W: Watch<E, N, V>>(
    table: &mut Table<N, V>,
    calls: &[Call<'_, E>],
    watch: &mut W,
    mut answers: Vec<Result<Answer<E>, Fault>>,
) -> Vec<Result<Answer<E>, Fault>>
    requires none_yet { answers.items ≡ [] }
    requires room { length calls.now ≤ vec_capacity answers }
    ensures { Plays N.Runs V.Runs table.old.trunk (map call_of calls.now) (map told result.items) table.new.trunk }
{
    for call in calls {
        let answer = step(table, call);
        watch.see(table, &answer);
        answers.push(answer).unwrap();
    }
    answers
}
