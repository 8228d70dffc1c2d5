// Whole histories over two fresh tiered stores.
ghost use Rattle.std.specs.Prelude.{MatchResult, IfOk, length, map};
ghost use Rattle.runs.specs.Calls.{taken};
ghost use Rattle.tiered.specs.Meaning.{store_state};
ghost use Rattle.history_model.specs.Histories.{Room};
ghost use Rattle.history.specs.Calls.{call_of};
ghost use Rattle.history.specs.Fresh.{OverFresh, Memory};
ghost use Rattle.history.specs.Whole.{Whole, answers_of};

use crate::call::{Answer, Call};
use crate::history::history;
use crate::left::{Last, NoHistory, Played};
use crate::watch::Watch;
use nodes::fault::Fault;
use runs::entry::{Entry, NodeRow};
use runs::store::Runs;
use std::alloc::Global;
use table::Table;
use tiered::Tiered;

// The memory that a store is lent.
#[derive(Drop)]
pub struct Lent<'a, E> {
    pub cells: &'a mut [E],
    pub ledger: &'a mut [u64],
}

// Who looks on while a history is played on a table of two tiered stores.
pub trait WatchTiered<E: Entry> {
    // Sees each answer as it is given, and the table that the call leaves.
    fn see(
        &mut self,
        table: &Table<Tiered<'_, NodeRow>, Tiered<'_, E>>,
        answer: &Result<Answer<E>, Fault>,
    );
}

// It looks on at any history on such a table. The memory's lifetimes can't stand in its own type: a caller could not borrow the memory after it.
#[derive(Drop)]
struct Told<'w, W> {
    watch: &'w mut W,
}

impl<'w, 'n, 'v, E: Entry, W: WatchTiered<E>> Watch<E, Tiered<'n, NodeRow>, Tiered<'v, E>>
    for Told<'w, W> {
    fn see(
        &mut self,
        table: &Table<Tiered<'n, NodeRow>, Tiered<'v, E>>,
        answer: &Result<Answer<E>, Fault>,
    ) {
        self.watch.see(table, answer);
    }
}

// A history over two tiered stores that are made of lent memory. No run is live in them, so that none but memory can be wanting.
pub fn history_over_fresh<'n, 'v, E: Entry, W: WatchTiered<E>>(
    alloc: Global,
    nodes: Lent<'n, NodeRow>,
    values: Lent<'v, E>,
    calls: &[Call<'_, E>],
    last: Last,
    watch: &mut W,
) -> Result<
    Played<Tiered<'n, NodeRow>, Tiered<'v, E>>,
    NoHistory<Tiered<'n, NodeRow>, Tiered<'v, E>>,
>
    ensures whole { MatchResult result
        (λ p. OverFresh store_state store_state (taken (length nodes.entry.cells.now) (length nodes.entry.ledger.now)) (taken (length values.entry.cells.now) (length values.entry.ledger.now))
        (λ x y. Whole ⟦<Tiered<'n, NodeRow> as Runs>⟧ ⟦<Tiered<'v, E> as Runs>⟧ x y (map call_of calls.now) last p))
        Memory }
    ensures room { IfOk result (λ p. Room E.LONGEST (taken (length nodes.entry.cells.now) (length nodes.entry.ledger.now)) (taken (length values.entry.cells.now) (length values.entry.ledger.now))
        (map call_of calls.now) (answers_of p.answers.items)) }
{
    let nodes = Tiered::new(nodes.cells, nodes.ledger);
    let values = Tiered::new(values.cells, values.ledger);
    history(alloc, nodes, values, calls, last, &mut Told { watch })
}
