// The tiered store: runs in groups of seven sizes over lent cells, with a lent ledger of one word a cell.
//
// A ledger word is the number of entries of the run that begins at its cell, or, for a freed group, 64 times the link to the
// group of its size that was freed before it. A call asks first and writes then: the steps below are made only where every check has said yes.
#![tactic(auto)]

ghost use Rattle.std.specs.Prelude.{◌≡◌, ◌+◌, ◌-◌, ◌<◌, ◌≤◌, min, true, ◌++◌, length, take, drop, Some, None, ◌≢◌, slice_set};
ghost use Rattle.runs.specs.Lists.{indexes, nth, with_new, without};
ghost use Rattle.runs.specs.Refusals.{told};
ghost use Rattle.runs.specs.Sizes.{size};
ghost use Rattle.runs.specs.Runs.{grows, shrinks, no_entry, no_insert, no_remove};
ghost use Rattle.runs.specs.Calls.{Says, Tells, taken};
ghost use Rattle.tiered_model.specs.Tiered.{fresh, has, change, tiered, group, held, ended, kept};
ghost use Rattle.tiered_model.specs.Resizes.{Resized};
ghost use Rattle.tiered_model.specs.Ledger.{Sound};

use runs::entry::Entry;
use runs::fault::StoreFault;
use runs::index::EMPTY;
use runs::lent::take;
use runs::shift::{copy_run, entry_in, shift_left, shift_right};

pub mod store;

#[derive(Drop)]
pub struct Tiered<'a, E: Entry> {
    // two slices and links by number: the memory is lent, and there is no heap
    cells: &'a mut [E],
    ledger: &'a mut [u64],
    claimed: u32,
    // for each size the link to the group freed last, coded as in a ledger word: its index and 1, or 0 for none
    heads: [u32; 33],
    // how many runs are live
    runs: u32,
    // the memory agrees with itself
    ghost sound: { ∥ Sound E.LONGEST cells.now ledger.now claimed heads runs ∥₁ },
}

impl<'a, E: Entry> Tiered<'a, E> {
    ghost use Rattle.tiered.specs.Meaning.{store_state};

    // A store with no run over cells and a ledger of one word a cell; with no cells where the two differ in length or are too long.
    pub fn new(cells: &'a mut [E], ledger: &'a mut [u64]) -> Tiered<'a, E>
        ensures after { store_state result ≡ fresh (taken (length cells.old) (length ledger.old)) }
    {
        let (cells, ledger) = take(cells, ledger);
        Tiered {
            cells,
            ledger,
            claimed: 0,
            heads: [0; 33],
            runs: 0,
        }
    }

    // Whether a group of size y can be had.
    fn has_group(&self, y: u32) -> bool
        requires small { y ≤ 32 }
        ensures { result ≡ has (store_state self.now) y }
    {
        self.heads[y as usize] > 0 || (self.claimed + y) as usize <= self.cells.len()
    }

    // Whether a run can go from size z to size y.
    fn may_change(&self, z: u32, y: u32) -> Result<(), StoreFault>
        requires small { y ≤ 32 }
        ensures { Says told result (change (store_state self.now) z y) }
    {
        if z == y || self.has_group(y) {
            Ok(())
        } else {
            Err(StoreFault::NoGroup(0))
        }
    }

    // A group of size y becomes a run of n entries, whatever its cells hold.
    fn take_group(&mut self, y: u32, n: u32) -> u32
        requires long { (1 ≤ n) × (n ≤ E.Entry.LONGEST) }
        requires sized { size E.Entry.LONGEST n ≡ y }
        requires has { has (store_state self.old) y ≡ true }
        ensures group { result ≡ group (store_state self.old) y }
        ensures after { store_state self.new ≡ held (store_state self.old) y (take n (drop result self.old.cells.now)) }
        ensures cells { self.new.cells.now ≡ self.old.cells.now }
    {
        let head = self.heads[y as usize];
        if head == 0 {
            let at = self.claimed;
            self.ledger[at as usize] = n as u64;
            self.claimed += y;
            self.runs += 1;
            return at;
        }
        let at = head - 1;
        let before = (self.ledger[at as usize] / 64) as u32;
        self.ledger[at as usize] = n as u64;
        self.heads[y as usize] = before;
        self.runs += 1;
        at
    }

    // The run at an index ends, and its group becomes the first free one of its size y.
    fn release(&mut self, at: u32, y: u32)
        requires live { 1 ≤ length ((store_state self.old).live at) }
        requires sized { size E.Entry.LONGEST (length ((store_state self.old).live at)) ≡ y }
        ensures after { store_state self.new ≡ ended (store_state self.old) y at }
        ensures cells { self.new.cells.now ≡ self.old.cells.now }
    {
        let before = self.heads[y as usize];
        self.ledger[at as usize] = 64 * (before as u64);
        self.heads[y as usize] = at + 1;
        self.runs -= 1;
    }

    // The run at an index has m entries now, in its group.
    fn lengthen(&mut self, at: u32, m: u32)
        requires live { 1 ≤ length ((store_state self.old).live at) }
        requires long { (1 ≤ m) × (m ≤ E.Entry.LONGEST) }
        requires sized { size E.Entry.LONGEST (length ((store_state self.old).live at)) ≡ size E.Entry.LONGEST m }
        ensures after { store_state self.new ≡ kept (store_state self.old) at (take m (drop at self.old.cells.now)) }
        ensures cells { self.new.cells.now ≡ self.old.cells.now }
    {
        self.ledger[at as usize] = m as u64;
    }

    // The entry at a slot of a run. (One line over fields of this store's own, here and in a flat one: a shared function would take both and say the same.)
    fn read(&self, at: u32, slot: u32) -> E
        requires slot { slot < length ((store_state self.now).live at) }
        ensures { nth ((store_state self.now).live at) slot ≡ Some result }
    {
        entry_in(self.cells, (at + slot) as usize).unwrap()
    }

    // Writes an entry at a slot of a run. (One line, here and in a flat store.)
    fn replace(&mut self, at: u32, slot: u32, e: E)
        requires slot { slot < length ((store_state self.old).live at) }
        ensures after { store_state self.new ≡ kept (store_state self.old) at (slice_set ((store_state self.old).live at) slot e) }
    {
        self.cells[(at + slot) as usize] = e;
    }

    // Puts an entry before a slot of the first n entries of a run of n + 1.
    fn open_gap(&mut self, at: u32, n: u32, slot: u32, e: E)
        requires long { length ((store_state self.old).live at) ≡ n + 1 }
        requires slot { slot ≤ n }
        ensures after { store_state self.new ≡ kept (store_state self.old) at (with_new (take n ((store_state self.old).live at)) slot e) }
    {
        shift_right(self.cells, (at + slot) as usize, (at + n) as usize).unwrap();
        self.cells[(at + slot) as usize] = e;
    }

    // Takes the entry at a slot out of a run of n; the last place stays as it was.
    fn close_gap(&mut self, at: u32, n: u32, slot: u32)
        requires long { length ((store_state self.old).live at) ≡ n }
        requires slot { slot < n }
        ensures after { store_state self.new ≡ kept (store_state self.old) at (without ((store_state self.old).live at) slot ++ drop (n - 1) ((store_state self.old).live at)) }
    {
        shift_left(self.cells, (at + slot) as usize, (at + n) as usize).unwrap();
    }

    // Copies the first k entries of a run over those of another.
    fn copy_entries(&mut self, from: u32, to: u32, k: u32)
        requires some { 1 ≤ k }
        requires from { k ≤ length ((store_state self.old).live from) }
        requires to { k ≤ length ((store_state self.old).live to) }
        requires apart { from ≢ to }
        ensures after { store_state self.new ≡ kept (store_state self.old) to (take k ((store_state self.old).live from) ++ drop k ((store_state self.old).live to)) }
    {
        copy_run(self.cells, from as usize, to as usize, k as usize).unwrap();
    }

    // A run of n entries takes a group of another size for m, and frees its own.
    fn move_run(&mut self, at: u32, n: u32, m: u32) -> u32
        requires old { (1 ≤ n) × (length ((store_state self.old).live at) ≡ n) }
        requires new { (1 ≤ m) × (m ≤ E.Entry.LONGEST) }
        requires other { size E.Entry.LONGEST n ≢ size E.Entry.LONGEST m }
        requires has { has (store_state self.old) (size E.Entry.LONGEST m) ≡ true }
        ensures after { Resized E.Entry.LONGEST (store_state self.old) at m result (store_state self.new) }
    {
        let to = self.take_group(E::size(m), m);
        self.copy_entries(at, to, n.min(m));
        self.release(at, E::size(n));
        to
    }

    // A run of n entries goes to m, in its group if that has the size, else in another one.
    fn resize(&mut self, at: u32, n: u32, m: u32) -> u32
        requires old { (1 ≤ n) × (length ((store_state self.old).live at) ≡ n) }
        requires new { (1 ≤ m) × (m ≤ E.Entry.LONGEST) }
        requires may { change (store_state self.old) (size E.Entry.LONGEST n) (size E.Entry.LONGEST m) ≡ None }
        ensures after { Resized E.Entry.LONGEST (store_state self.old) at m result (store_state self.new) }
    {
        let old = E::size(n);
        let new = E::size(m);
        if old == new {
            self.lengthen(at, m);
            return at;
        }
        self.move_run(at, n, m)
    }

    // A new run of one entry.
    fn open_run(&mut self, e: E) -> u32
        requires may { grows (tiered E.Entry.LONGEST) (store_state self.old) 0 ≡ None }
        ensures after { store_state self.new ≡ (tiered E.Entry.LONGEST).opened (store_state self.old) e }
        ensures place { result ≡ (tiered E.Entry.LONGEST).opened_at (store_state self.old) e }
    {
        let at = self.take_group(1, 1);
        self.replace(at, 0, e);
        at
    }

    // An entry before a slot of a run of n.
    fn put_in(&mut self, at: u32, n: u32, slot: u32, e: E) -> u32
        requires may { no_insert (tiered E.Entry.LONGEST) (store_state self.old) at slot ≡ None }
        requires long { n ≡ length ((store_state self.old).live at) }
        ensures after { store_state self.new ≡ (tiered E.Entry.LONGEST).inserted (store_state self.old) at slot e }
        ensures place { result ≡ (tiered E.Entry.LONGEST).inserted_at (store_state self.old) at slot e }
    {
        let to = self.resize(at, n, n + 1);
        self.open_gap(to, n, slot, e);
        to
    }

    // The entry at a slot out of a run of n.
    fn take_out(&mut self, at: u32, n: u32, slot: u32) -> u32
        requires may { no_remove (tiered E.Entry.LONGEST) (store_state self.old) at slot ≡ None }
        requires long { n ≡ length ((store_state self.old).live at) }
        ensures after { store_state self.new ≡ (tiered E.Entry.LONGEST).removed (store_state self.old) at slot }
        ensures place { result ≡ (tiered E.Entry.LONGEST).removed_at (store_state self.old) at slot }
    {
        if n == 1 {
            self.release(at, 1);
            return EMPTY;
        }
        self.close_gap(at, n, slot);
        self.resize(at, n, n - 1)
    }
}
