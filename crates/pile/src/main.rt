// The same calls on stores alone and under one, two and three quotas: each line has the answers of one pile, so that the refusals
// 23 (no group) and 24 (limit reached) are seen with the layers that they have crossed.
#![tactic(auto)]

use bitmap::Slot;
use flat::flat::Flat;
use quota::quota::{Occupied, Quota};
use runs::fault::StoreFault;
use runs::index::{CellIndex, RunIndex};
use runs::store::RunStore;
use std::io;
use tiered::Tiered;

// What is done with a store, whatever store it is. (The console has the like for stores of any entry that tell what they have claimed.)
trait Client {
    fn with<S: RunStore<Item = u32> + Drop>(self, store: S) -> io::Result<()>;

    // The store has a live run, so that no quota can be put over it.
    fn refused<S: Drop>(self, back: Occupied<S>) -> io::Result<()>;
}

// A quota over the store first, and then the rest.
#[derive(Drop)]
struct Limited<C> {
    limit: u32,
    then: C,
}

impl<C: Client + Drop> Client for Limited<C> {
    fn with<S: RunStore<Item = u32> + Drop>(self, store: S) -> io::Result<()> {
        let Limited { limit, then } = self;
        match Quota::start(store, limit) {
            Ok(quota) => then.with(quota),
            Err(back) => then.refused(back),
        }
    }

    fn refused<S: Drop>(self, back: Occupied<S>) -> io::Result<()> {
        self.then.refused(back)
    }
}

// The calls on a store, and the line of their answers, which begins with a name.
#[derive(Clone, Copy)]
struct Play<'a> {
    rt: &'a HostRuntime,
    name: &'a str,
}

impl<'a> Client for Play<'a> {
    fn with<S: RunStore<Item = u32> + Drop>(self, store: S) -> io::Result<()> {
        let mut store = store;
        self.play(&mut store)
    }

    fn refused<S: Drop>(self, back: Occupied<S>) -> io::Result<()> {
        println!(self.rt; "{} | refused {back}", self.name)
    }
}

impl<'a> Play<'a> {
    // An index that was answered, which is handed on, or the refusal.
    fn index(
        &self,
        answer: Result<CellIndex, StoreFault>,
        old: CellIndex,
    ) -> io::Result<CellIndex> {
        match answer {
            Ok(index) => {
                print!(self.rt; " | {index}")?;
                Ok(index)
            }
            Err(fault) => {
                print!(self.rt; " | refused {fault}")?;
                Ok(old)
            }
        }
    }

    // A run is opened, and gets four entries more at its end; a second one is opened; an entry is exchanged, and one is taken out.
    fn play<S: RunStore<Item = u32>>(&self, store: &mut S) -> io::Result<()> {
        print!(self.rt; "{}", self.name)?;
        let mut at = self.index(store.open(10), CellIndex::empty())?;
        for (number, e) in (1..5).zip([11, 12, 13, 14]) {
            at = self.index(store.insert(at, Slot { number }, e), at)?;
        }
        self.index(store.open(20), at)?;
        match store.exchange(at, Slot { number: 0 }, 30) {
            Ok(old) => print!(self.rt; " | was {old}")?,
            Err(fault) => print!(self.rt; " | refused {fault}")?,
        }
        match store.remove(at, Slot { number: 1 }) {
            Ok((e, index)) => println!(self.rt; " | took {e}, {index}"),
            Err(fault) => println!(self.rt; " | refused {fault}"),
        }
    }
}

// The inner quota is written first.
fn under<C>(limit: u32, then: C) -> Limited<C> {
    Limited { limit, then }
}

// (Two lists of piles, this one and the next, over two types of store.) Seven cells hold a run of four, whose first group is free again for a second run of one.
fn play_tiered(rt: &HostRuntime) -> io::Result<()> {
    let mut cells = [0u32; 7];
    let mut ledger = [0u64; 7];
    let named = |name| Play { rt, name };
    named("tiered 7").with(Tiered::new(&mut cells, &mut ledger))?;
    under(9, named("quota 9, tiered 7")).with(Tiered::new(&mut cells, &mut ledger))?;
    under(9, under(9, named("quota 9, quota 9, tiered 7"))).with(Tiered::new(
        &mut cells,
        &mut ledger,
    ))?;
    under(3, named("quota 3, tiered 7")).with(Tiered::new(&mut cells, &mut ledger))?;
    under(3, under(9, named("quota 9, quota 3, tiered 7"))).with(Tiered::new(
        &mut cells,
        &mut ledger,
    ))?;
    under(
        3,
        under(9, under(9, named("quota 9, quota 9, quota 3, tiered 7"))),
    )
    .with(Tiered::new(&mut cells, &mut ledger))
}

// Thirty-one cells hold one run, of any length.
fn play_flat(rt: &HostRuntime) -> io::Result<()> {
    let mut cells = [0u32; 31];
    let mut ledger = [0u64; 31];
    let named = |name| Play { rt, name };
    named("flat 31").with(Flat::new(&mut cells, &mut ledger))?;
    under(9, named("quota 9, flat 31")).with(Flat::new(&mut cells, &mut ledger))?;
    under(9, under(9, named("quota 9, quota 9, flat 31"))).with(Flat::new(
        &mut cells,
        &mut ledger,
    ))?;
    under(9, under(3, named("quota 3, quota 9, flat 31"))).with(Flat::new(
        &mut cells,
        &mut ledger,
    ))?;
    under(3, under(9, named("quota 9, quota 3, flat 31"))).with(Flat::new(
        &mut cells,
        &mut ledger,
    ))?;
    under(
        3,
        under(9, under(9, named("quota 9, quota 9, quota 3, flat 31"))),
    )
    .with(Flat::new(&mut cells, &mut ledger))
}

fn main(rt: HostRuntime) -> io::Result<()> {
    println!(rt;
        "store | open | insert 1 | insert 2 | insert 3 | insert 4 | open | exchange 0 | remove 1"
    )?;
    play_tiered(&rt)?;
    play_flat(&rt)
}
