// How a history goes on after its calls.
ghost use Rattle.std.specs.Prelude.{◌≡◌, ◌≤◌, [], map, vec_capacity};
ghost use Rattle.table_model.specs.Tree.{walk as walk_of};
ghost use Rattle.trunk.specs.Meaning.{tree};
ghost use Rattle.walk.specs.Meaning.{to_come};
ghost use Rattle.history_model.specs.Books.{nexts, left};
ghost use Rattle.history.specs.Last.{asked};
ghost use Rattle.history.specs.Plays.{next_of};
ghost use Rattle.history.specs.Whole.{GoesOn};

use crate::left::{Last, Left};
use bitmap::Bit;
use runs::entry::{Entry, NodeRow};
use runs::store::RunStore;
use table::Table;
use walk::Walk;
use walk::begin::begin;

// The table walked by so many nexts. What they hand out has its room beforehand.
fn walked<E: Entry, N: RunStore<Item = NodeRow>, V: RunStore<Item = E>>(
    table: Table<N, V>,
    count: usize,
    mut given: Vec<Option<(Bit, E)>>,
) -> (Vec<Option<(Bit, E)>>, Walk<N, V>)
    requires none_yet { given.items ≡ [] }
    requires room { count ≤ vec_capacity given }
    ensures trunk { result.1.trunk ≡ table.trunk }
    ensures given { map next_of result.0.items ≡ nexts (walk_of 25 (tree N.Runs V.Runs table.trunk)) count }
    ensures left { to_come N.Runs V.Runs result.1 ≡ left (walk_of 25 (tree N.Runs V.Runs table.trunk)) count }
{
    let mut walk = begin(table);
    for _ in 0..count {
        given.push(walk.next()).unwrap();
    }
    (given, walk)
}

// What the nexts hand out, and what is left.
pub(crate) fn go_on<E: Entry, N: RunStore<Item = NodeRow>, V: RunStore<Item = E>>(
    table: Table<N, V>,
    last: Last,
    given: Vec<Option<(Bit, E)>>,
) -> (Vec<Option<(Bit, E)>>, Left<N, V>)
    requires none_yet { given.items ≡ [] }
    requires room { asked last ≤ vec_capacity given }
    ensures { GoesOn N.Runs V.Runs table.trunk last result.0.items result.1 }
{
    match last {
        Last::Stay => (given, Left::Table(table)),
        Last::Walk(count) => {
            let (given, walk) = walked(table, count, given);
            (given, Left::Walk(walk))
        }
        Last::End(count) => {
            let (given, walk) = walked(table, count, given);
            let (left, nodes, values) = walk.end();
            (given, Left::Ended(left, nodes, values))
        }
    }
}
