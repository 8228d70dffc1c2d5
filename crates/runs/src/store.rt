// The run store: what every store promises. docs/STORES.md says it in words.
ghost use Rattle.std.specs.Prelude.{◌≡◌, ℕ, length, Some};
ghost use Rattle.runs.specs.Lists.{nth};
ghost use Rattle.runs.specs.Refusals.{told};
ghost use Rattle.runs.specs.Runs.{Model, Lawful, grows, shrinks, no_entry, no_insert, no_remove, count};
ghost use Rattle.runs.specs.Calls.{Says, Tells, Called};

use crate::entry::Entry;
use crate::fault::StoreFault;
use bitmap::Slot;

// What a store says of its runs. A question changes nothing.
pub trait Runs {
    type Item: Entry;

    // the states that a store goes through, and what each means
    ghost State: { Type 0 };

    ghost model: { Model Self.Item State };

    ghost state: { Self → State };

    // the states that can be; by the laws of a run store every call leads from one to another
    ghost Valid: { State → Type 0 };

    // all that a refusal leaves as it was, to the last cell
    ghost Memory: { Type 0 };

    ghost memory: { Self → Memory };

    // How many runs are live.
    fn count(&self) -> u32
        ensures { result ≡ count (model.live (state self.now)) };

    // How many entries the run at an index has: a number, which is 0 where none is live.
    fn length(&self, at: <Self::Item as Entry>::Index) -> u32
        ensures { result ≡ length (model.live (state self.now) (Self.Item.Index.number at)) };

    // Whether a run of n entries can have one more; of none, whether one can be opened.
    fn grow(&self, n: u32) -> Result<(), StoreFault>
        ensures { Says told result (grows model (state self.now) n) };

    // Whether a run of n entries can have one less.
    fn shrink(&self, n: u32) -> Result<(), StoreFault>
        ensures { Says told result (shrinks model (state self.now) n) };

    // The length of the run at an index that has the slot.
    final fn may_read(
        &self,
        at: <Self::Item as Entry>::Index,
        slot: Slot,
    ) -> Result<u32, StoreFault>
        ensures { Tells told result (no_entry model (state self.now) (Self.Item.Index.number at) slot.number)
            (λ n. n ≡ length (model.live (state self.now) (Self.Item.Index.number at))) }
    {
        let n = self.length(at);
        if n == 0 {
            return Err(StoreFault::NotLive);
        }
        if slot.number >= n {
            return Err(StoreFault::BadSlot);
        }
        Ok(n)
    }

    // The length of the run at an index that may get an entry before the slot.
    final fn may_insert(
        &self,
        at: <Self::Item as Entry>::Index,
        slot: Slot,
    ) -> Result<u32, StoreFault>
        ensures { Tells told result (no_insert model (state self.now) (Self.Item.Index.number at) slot.number)
            (λ n. n ≡ length (model.live (state self.now) (Self.Item.Index.number at))) }
    {
        let n = self.length(at);
        if n == 0 {
            return Err(StoreFault::NotLive);
        }
        if slot.number > n {
            return Err(StoreFault::BadSlot);
        }
        self.grow(n)?;
        Ok(n)
    }

    // The length of the run at an index that may lose the entry at the slot.
    final fn may_remove(
        &self,
        at: <Self::Item as Entry>::Index,
        slot: Slot,
    ) -> Result<u32, StoreFault>
        ensures { Tells told result (no_remove model (state self.now) (Self.Item.Index.number at) slot.number)
            (λ n. n ≡ length (model.live (state self.now) (Self.Item.Index.number at))) }
    {
        let n = self.may_read(at, slot)?;
        self.shrink(n)?;
        Ok(n)
    }

    ghost lawful: { Lawful model Self.Item.LONGEST Valid };

    // a store agrees with itself and with what is below it
    ghost valid: { (s : Self) → Valid (state s) };
}

// A store whose runs are read and changed. A call that is refused changes nothing.
pub trait RunStore: Runs {
    // The entry at a slot.
    fn entry(&self, at: <Self::Item as Entry>::Index, slot: Slot) -> Result<Self::Item, StoreFault>
        ensures { Tells told result (no_entry Self.model (Self.state self.now) (Self.Item.Index.number at) slot.number)
            (λ e. nth (Self.model.live (Self.state self.now) (Self.Item.Index.number at)) slot.number ≡ Some e) };

    // Writes an entry at a slot and hands back the old one.
    fn exchange(
        &mut self,
        at: <Self::Item as Entry>::Index,
        slot: Slot,
        e: Self::Item,
    ) -> Result<Self::Item, StoreFault>
        ensures called { Called Self.state Self.memory self.old
            (no_entry Self.model (Self.state self.old) (Self.Item.Index.number at) slot.number)
            (Self.model.exchanged (Self.state self.old) (Self.Item.Index.number at) slot.number e)
            self.new }
        ensures answer { Tells told result (no_entry Self.model (Self.state self.old) (Self.Item.Index.number at) slot.number)
            (λ old. nth (Self.model.live (Self.state self.old) (Self.Item.Index.number at)) slot.number ≡ Some old) };

    // A run of one entry; the answer is its index.
    fn open(&mut self, e: Self::Item) -> Result<<Self::Item as Entry>::Index, StoreFault>
        ensures called { Called Self.state Self.memory self.old
            (grows Self.model (Self.state self.old) 0)
            (Self.model.opened (Self.state self.old) e)
            self.new }
        ensures answer { Tells told result (grows Self.model (Self.state self.old) 0)
            (λ j. Self.Item.Index.number j ≡ Self.model.opened_at (Self.state self.old) e) };

    // An entry before a slot, which may be the run's length; the answer is the run's index, old or new.
    fn insert(
        &mut self,
        at: <Self::Item as Entry>::Index,
        slot: Slot,
        e: Self::Item,
    ) -> Result<<Self::Item as Entry>::Index, StoreFault>
        ensures called { Called Self.state Self.memory self.old
            (no_insert Self.model (Self.state self.old) (Self.Item.Index.number at) slot.number)
            (Self.model.inserted (Self.state self.old) (Self.Item.Index.number at) slot.number e)
            self.new }
        ensures answer { Tells told result (no_insert Self.model (Self.state self.old) (Self.Item.Index.number at) slot.number)
            (λ j. Self.Item.Index.number j ≡ Self.model.inserted_at (Self.state self.old) (Self.Item.Index.number at) slot.number e) };

    // Takes the entry at a slot out; the answer is the entry and the run's index, old or new, or empty where the run has ended.
    fn remove(
        &mut self,
        at: <Self::Item as Entry>::Index,
        slot: Slot,
    ) -> Result<(Self::Item, <Self::Item as Entry>::Index), StoreFault>
        ensures called { Called Self.state Self.memory self.old
            (no_remove Self.model (Self.state self.old) (Self.Item.Index.number at) slot.number)
            (Self.model.removed (Self.state self.old) (Self.Item.Index.number at) slot.number)
            self.new }
        ensures answer { Tells told result (no_remove Self.model (Self.state self.old) (Self.Item.Index.number at) slot.number)
            (λ x. (nth (Self.model.live (Self.state self.old) (Self.Item.Index.number at)) slot.number ≡ Some x.0)
            × (Self.Item.Index.number x.1 ≡ Self.model.removed_at (Self.state self.old) (Self.Item.Index.number at) slot.number)) };
}
