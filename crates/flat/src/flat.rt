// A run store in which every run has a group of as many cells as the longest run has entries.
// A run stays at its index until it ends, and the group freed last is used first.
ghost use Rattle.std.specs.Prelude.{◌≡◌, ◌<◌, ◌≤◌, true, length, take, drop, Some, None, slice_set};
ghost use Rattle.runs.specs.Lists.{indexes, nth, without};
ghost use Rattle.runs.specs.Runs.{grows, no_insert, no_remove};
ghost use Rattle.runs.specs.Calls.{taken};
ghost use Rattle.flat_model.specs.Flat.{fresh, flat, has, group, held, kept, released};
ghost use Rattle.flat_model.specs.Ledger.{Sound};

mod asking;

use bitmap::Slot;
use runs::entry::Entry;
use runs::fault::StoreFault;
use runs::index::{EMPTY, RunIndex};
use runs::lent::take;
use runs::shift::{entry_in, shift_left, shift_right};
use runs::store::{RunStore, Runs};

#[derive(Drop)]
pub struct Flat<'a, E: Entry> {
    // two slices and links by number: the memory is lent, and there is no heap
    cells: &'a mut [E],
    // a word a cell: the length of the run that begins there, and 64 times the link to the group freed before this one
    ledger: &'a mut [u64],
    // how many cells have ever been in a group
    claimed: u32,
    // the link to the group freed last, coded as in a ledger word: its index and 1, or 0 for none
    head: u32,
    // how many runs are live
    runs: u32,
    // the memory agrees with itself
    ghost sound: { ∥ Sound E.LONGEST cells.now ledger.now claimed head runs ∥₁ },
}

impl<'a, E: Entry> Flat<'a, E> {
    ghost use Rattle.flat.specs.Meaning.{store_state};

    // A store with no run over cells and a ledger of one word a cell, which is cleared.
    // Where `lent` refuses them, the store has no cells.
    pub fn new(cells: &'a mut [E], ledger: &'a mut [u64]) -> Flat<'a, E>
        ensures after { store_state result ≡ fresh (taken (length cells.old) (length ledger.old)) }
    {
        let (cells, ledger) = take(cells, ledger);
        Flat {
            cells,
            ledger,
            claimed: 0,
            head: 0,
            runs: 0,
        }
    }

    // The next unclaimed group becomes a run of one entry, whatever its cell holds.
    fn claim_next(&mut self) -> u32
        requires none { self.old.head ≡ 0 }
        requires has { has E.Entry.LONGEST (store_state self.old) ≡ true }
        ensures group { result ≡ group (store_state self.old) }
        ensures after { store_state self.new ≡ held E.Entry.LONGEST (store_state self.old) (take 1 (drop result self.old.cells.now)) }
    {
        let at = self.claimed;
        self.ledger[at as usize] = 1;
        self.claimed += E::LONGEST;
        self.runs += 1;
        at
    }

    // The group freed last becomes a run of one entry, whatever its cell holds.
    fn use_again(&mut self) -> u32
        requires some { 0 < self.old.head }
        ensures group { result ≡ group (store_state self.old) }
        ensures after { store_state self.new ≡ held E.Entry.LONGEST (store_state self.old) (take 1 (drop result self.old.cells.now)) }
    {
        let at = self.head - 1;
        let before = (self.ledger[at as usize] / 64) as u32;
        self.ledger[at as usize] = 1;
        self.head = before;
        self.runs += 1;
        at
    }

    // The run at an index ends, and its group is the one freed last.
    fn release(&mut self, at: u32)
        requires live { 1 ≤ length ((store_state self.old).live at) }
        ensures after { store_state self.new ≡ released (store_state self.old) at }
    {
        self.ledger[at as usize] = 64 * self.head as u64;
        self.head = at + 1;
        self.runs -= 1;
    }

    // A group becomes a run of one entry, whatever its cell holds.
    fn take_group(&mut self) -> u32
        requires has { has E.Entry.LONGEST (store_state self.old) ≡ true }
        ensures group { result ≡ group (store_state self.old) }
        ensures after { store_state self.new ≡ held E.Entry.LONGEST (store_state self.old) (take 1 (drop result self.old.cells.now)) }
    {
        if self.head == 0 {
            self.claim_next()
        } else {
            self.use_again()
        }
    }

    // The entry at a slot of a run. (One line over fields of this store's own, here and in a tiered one: a shared function would take both and say the same.)
    fn read(&self, at: u32, slot: u32) -> E
        requires slot { slot < length ((store_state self.now).live at) }
        ensures { nth ((store_state self.now).live at) slot ≡ Some result }
    {
        entry_in(self.cells, (at + slot) as usize).unwrap()
    }

    // Writes an entry at a slot of a run. (One line, here and in a tiered store.)
    fn replace(&mut self, at: u32, slot: u32, e: E)
        requires slot { slot < length ((store_state self.old).live at) }
        ensures after { store_state self.new ≡ kept (store_state self.old) at (slice_set ((store_state self.old).live at) slot e) }
    {
        self.cells[(at + slot) as usize] = e;
    }

    // A new run of one entry.
    fn open_run(&mut self, e: E) -> u32
        requires may { grows (flat E.Entry.LONGEST) (store_state self.old) 0 ≡ None }
        ensures after { store_state self.new ≡ (flat E.Entry.LONGEST).opened (store_state self.old) e }
        ensures place { result ≡ (flat E.Entry.LONGEST).opened_at (store_state self.old) e }
    {
        let at = self.take_group();
        self.replace(at, 0, e);
        at
    }

    // An entry before a slot of a run of n, whose group has room for it.
    fn put_in(&mut self, at: u32, n: u32, slot: u32, e: E)
        requires may { no_insert (flat E.Entry.LONGEST) (store_state self.old) at slot ≡ None }
        requires long { n ≡ length ((store_state self.old).live at) }
        ensures after { store_state self.new ≡ (flat E.Entry.LONGEST).inserted (store_state self.old) at slot e }
    {
        let Ok(()) = shift_right(self.cells, (at + slot) as usize, (at + n) as usize) else {
            unreachable()
        };
        self.cells[(at + slot) as usize] = e;
        self.ledger[at as usize] = n as u64 + 1;
    }

    // The entry at a slot out of a run of n, which keeps some.
    fn close_gap(&mut self, at: u32, n: u32, slot: u32)
        requires may { no_remove (flat E.Entry.LONGEST) (store_state self.old) at slot ≡ None }
        requires long { n ≡ length ((store_state self.old).live at) }
        requires more { 1 < n }
        ensures after { store_state self.new ≡ kept (store_state self.old) at (without ((store_state self.old).live at) slot) }
    {
        let Ok(()) = shift_left(self.cells, (at + slot) as usize, (at + n) as usize) else {
            unreachable()
        };
        self.ledger[at as usize] = n as u64 - 1;
    }

    // The entry at a slot out of a run of n; the last one ends it, and then no index names it.
    fn take_out(&mut self, at: u32, n: u32, slot: u32) -> u32
        requires may { no_remove (flat E.Entry.LONGEST) (store_state self.old) at slot ≡ None }
        requires long { n ≡ length ((store_state self.old).live at) }
        ensures after { store_state self.new ≡ (flat E.Entry.LONGEST).removed (store_state self.old) at slot }
        ensures place { result ≡ (flat E.Entry.LONGEST).removed_at (store_state self.old) at slot }
    {
        if n > 1 {
            self.close_gap(at, n, slot);
            at
        } else {
            self.release(at);
            EMPTY
        }
    }
}

// A tiered store has the same two or three lines for a call, and steps of its own below them: crates/tiered/src/store.rt says why they stand twice.
impl<'a, E: Entry> RunStore for Flat<'a, E> {
    fn entry(&self, at: E::Index, slot: Slot) -> Result<E, StoreFault> {
        self.may_read(at, slot)?;
        Ok(self.read(at.number(), slot.number))
    }

    fn exchange(&mut self, at: E::Index, slot: Slot, e: E) -> Result<E, StoreFault> {
        self.may_read(at, slot)?;
        let old = self.read(at.number(), slot.number);
        self.replace(at.number(), slot.number, e);
        Ok(old)
    }

    fn open(&mut self, e: E) -> Result<E::Index, StoreFault> {
        self.grow(0)?;
        Ok(E::Index::at(self.open_run(e)))
    }

    fn insert(&mut self, at: E::Index, slot: Slot, e: E) -> Result<E::Index, StoreFault> {
        let n = self.may_insert(at, slot)?;
        self.put_in(at.number(), n, slot.number, e);
        Ok(at)
    }

    fn remove(&mut self, at: E::Index, slot: Slot) -> Result<(E, E::Index), StoreFault> {
        let n = self.may_remove(at, slot)?;
        let old = self.read(at.number(), slot.number);
        Ok((
            old,
            E::Index::at(self.take_out(at.number(), n, slot.number)),
        ))
    }
}
