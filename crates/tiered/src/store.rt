// The tiered store as a run store: each call asks, and then does.
ghost use Rattle.std.specs.Prelude.{◌≡◌};
ghost use Rattle.tiered_model.specs.Tiered.{State, tiered};
ghost use Rattle.tiered_model.specs.Groups.{Valid, groups, cells_of};
ghost use Rattle.tiered_model.proofs.Lawful.{lawful};
ghost use Rattle.tiered_model.proofs.Known.{known};

use super::Tiered;
use bitmap::Slot;
use runs::entry::Entry;
use runs::fault::StoreFault;
use runs::index::RunIndex;
use runs::ledger::run_length;
use runs::store::{RunStore, Runs};

impl<'a, E: Entry> Tiered<'a, E> {
    ghost use Rattle.tiered.specs.Meaning.{store_state};

    // The claimed cells: they are the cells of all groups, of live runs and freed.
    pub fn claimed(&self) -> u32
        ensures state { result ≡ (store_state self.now).claimed }
        ensures sum { result ≡ cells_of E.Entry.LONGEST (groups E.Entry.LONGEST (store_state self.now)) }
    {
        self.claimed
    }
}

impl<'a, E: Entry> Runs for Tiered<'a, E> {
    ghost use Rattle.tiered.specs.Meaning.{store_state, Memory, memory_of};

    type Item = E;

    ghost State = { State E };

    ghost model = { tiered E.Entry.LONGEST };

    ghost state = { λ t. store_state t };

    ghost Valid = { Valid E.Entry.LONGEST };

    ghost Memory = { Memory E };

    ghost memory = { λ t. memory_of t };

    // One field, and below one word of the ledger, as in a flat store: nothing is left to share.
    fn count(&self) -> u32 {
        self.runs
    }

    fn length(&self, at: E::Index) -> u32 {
        run_length(self.ledger, at.number())
    }

    fn grow(&self, n: u32) -> Result<(), StoreFault> {
        if n >= E::LONGEST {
            return Err(StoreFault::AtLongest);
        }
        if n == 0 {
            return self.may_change(0, 1);
        }
        self.may_change(E::size(n), E::size(n + 1))
    }

    fn shrink(&self, n: u32) -> Result<(), StoreFault> {
        if n == 0 || n > E::LONGEST {
            return Err(StoreFault::BadSlot);
        }
        if n == 1 {
            return Ok(());
        }
        self.may_change(E::size(n), E::size(n - 1))
    }

    ghost lawful = { lawful E.Entry.LONGEST E.Entry.wide E.Entry.narrow };

    ghost valid = { λ t. (known E.Entry.LONGEST _ _ _ _ _ t.sound).valid };
}

// A flat store has the same two or three lines for a call, and steps of its own below them. To write the lines once, the steps would have to be
// public functions of a trait, which ask for what was judged; no public function of a store asks for anything.
impl<'a, E: Entry> RunStore for Tiered<'a, E> {
    fn entry(&self, at: E::Index, slot: Slot) -> Result<E, StoreFault> {
        self.may_read(at, slot)?;
        Ok(self.read(at.number(), slot.number))
    }

    fn exchange(&mut self, at: E::Index, slot: Slot, e: E) -> Result<E, StoreFault> {
        self.may_read(at, slot)?;
        let old = self.read(at.number(), slot.number);
        self.replace(at.number(), slot.number, e);
        Ok(old)
    }

    fn open(&mut self, e: E) -> Result<E::Index, StoreFault> {
        self.grow(0)?;
        Ok(E::Index::at(self.open_run(e)))
    }

    fn insert(&mut self, at: E::Index, slot: Slot, e: E) -> Result<E::Index, StoreFault> {
        let n = self.may_insert(at, slot)?;
        Ok(E::Index::at(self.put_in(at.number(), n, slot.number, e)))
    }

    fn remove(&mut self, at: E::Index, slot: Slot) -> Result<(E, E::Index), StoreFault> {
        let n = self.may_remove(at, slot)?;
        let old = self.read(at.number(), slot.number);
        Ok((
            old,
            E::Index::at(self.take_out(at.number(), n, slot.number)),
        ))
    }
}
