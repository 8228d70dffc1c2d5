// A whole history.
ghost use Rattle.std.specs.Prelude.{MatchResult, map};
ghost use Rattle.history.specs.Calls.{call_of};
ghost use Rattle.history.specs.Whole.{Whole, Back};

use crate::call::Call;
use crate::last::go_on;
use crate::left::{Last, NoHistory, Played};
use crate::play::play;
use crate::watch::Watch;
use runs::entry::{Entry, NodeRow};
use runs::store::RunStore;
use std::alloc::Global;
use table::start::start;

// A table is made of two stores and the calls are played on it, told one by one to who watches; then it is walked, if that is asked for.
// The memory for all that is told is taken first: nothing fails once the table has started.
pub fn history<E: Entry, N: RunStore<Item = NodeRow>, V: RunStore<Item = E>, W: Watch<E, N, V>>(
    alloc: Global,
    nodes: N,
    values: V,
    calls: &[Call<'_, E>],
    last: Last,
    watch: &mut W,
) -> Result<Played<N, V>, NoHistory<N, V>>
    ensures { MatchResult result (Whole N.Runs V.Runs nodes values (map call_of calls.now) last) (Back N.Runs V.Runs nodes values) }
{
    let Ok(answers) = Vec::with_capacity(alloc, calls.len()) else {
        return Err(NoHistory::NoMemory(nodes, values));
    };
    let Ok(given) = Vec::with_capacity(alloc, last.nexts()) else {
        return Err(NoHistory::NoMemory(nodes, values));
    };
    let mut table = start(nodes, values).map_err(NoHistory::NotStarted)?;
    let answers = play(&mut table, calls, watch, answers);
    let (nexts, left) = go_on(table, last, given);
    Ok(Played {
        answers,
        nexts,
        left,
    })
}
