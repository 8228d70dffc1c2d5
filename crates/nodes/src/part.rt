// One part of a node's record, a bitmap with its run: what the run's store is asked and told by the bitmap's bits.
ghost use Rattle.std.specs.Prelude.{◌≡◌, Some};
ghost use Rattle.bitmap.specs.Ranks.{rank, with_bit, without_bit};
ghost use Rattle.runs.specs.Lists.{nth};
ghost use Rattle.runs.specs.Refusals.{told};
ghost use Rattle.runs.specs.Runs.{grows, shrinks, no_entry, no_remove};
ghost use Rattle.runs.specs.Calls.{Says, Tells, Called};
ghost use Rattle.table_model.specs.States.{grown};
ghost use Rattle.table_model.specs.Judged.{no_growth};

use bitmap::{Bit, compute_slot, count, with_bit, without_bit};
use runs::entry::Entry;
use runs::fault::StoreFault;
use runs::index::RunIndex;
use runs::store::{RunStore, Runs};

// The run has an entry for each set bit, lowest bit first; with no bit set there is no run, and the index is empty.
#[derive(Clone, Copy, Debug, PartialEq, Eq)]
pub struct Part {
    pub bitmap: u32,
    pub index: u32,
}

impl Part {
    // Whether the run can have one entry more.
    pub fn may_grow<S: Runs>(self, store: &S) -> Result<(), StoreFault>
        ensures { Says told result (grows S.Runs.model (S.Runs.state store.now) (rank self.bitmap 32)) }
    {
        store.grow(count(self.bitmap))
    }

    // Whether it can have one entry less.
    pub fn may_shrink<S: Runs>(self, store: &S) -> Result<(), StoreFault>
        ensures { Says told result (shrinks S.Runs.model (S.Runs.state store.now) (rank self.bitmap 32)) }
    {
        store.shrink(count(self.bitmap))
    }

    // The entry at the rank of a bit.
    pub fn entry<S: RunStore>(self, store: &S, bit: Bit) -> Result<S::Item, StoreFault>
        ensures { Tells told result (no_entry S.Runs.model (S.Runs.state store.now) self.index (rank self.bitmap bit.number))
            (λ e. nth (S.Runs.model.live (S.Runs.state store.now) self.index) (rank self.bitmap bit.number) ≡ Some e) }
    {
        store.entry(
            <S::Item as Entry>::Index::at(self.index),
            compute_slot(self.bitmap, bit),
        )
    }

    // Another entry for that one, which is handed back.
    pub fn exchange<S: RunStore>(
        self,
        store: &mut S,
        bit: Bit,
        e: S::Item,
    ) -> Result<S::Item, StoreFault>
        ensures called { Called S.Runs.state S.Runs.memory store.old
            (no_entry S.Runs.model (S.Runs.state store.old) self.index (rank self.bitmap bit.number))
            (S.Runs.model.exchanged (S.Runs.state store.old) self.index (rank self.bitmap bit.number) e)
            store.new }
        ensures answer { Tells told result (no_entry S.Runs.model (S.Runs.state store.old) self.index (rank self.bitmap bit.number))
            (λ old. nth (S.Runs.model.live (S.Runs.state store.old) self.index) (rank self.bitmap bit.number) ≡ Some old) }
    {
        store.exchange(
            <S::Item as Entry>::Index::at(self.index),
            compute_slot(self.bitmap, bit),
            e,
        )
    }

    // A run is opened for the first set bit, else the entry goes before the bit's rank; the answer is the part with the bit.
    pub fn grow<S: RunStore>(self, store: &mut S, bit: Bit, e: S::Item) -> Result<Part, StoreFault>
        ensures called { Called S.Runs.state S.Runs.memory store.old
            (no_growth S.Runs.model (S.Runs.state store.old) self.bitmap self.index (rank self.bitmap bit.number))
            (grown S.Runs.model (S.Runs.state store.old) self.bitmap self.index (rank self.bitmap bit.number) e).0
            store.new }
        ensures answer { Tells told result (no_growth S.Runs.model (S.Runs.state store.old) self.bitmap self.index (rank self.bitmap bit.number))
            (λ part. (part.bitmap ≡ with_bit self.bitmap bit.number)
            × (part.index ≡ (grown S.Runs.model (S.Runs.state store.old) self.bitmap self.index (rank self.bitmap bit.number) e).1)) }
    {
        let at = if self.bitmap == 0 {
            store.open(e)?
        } else {
            store.insert(
                <S::Item as Entry>::Index::at(self.index),
                compute_slot(self.bitmap, bit),
                e,
            )?
        };
        Ok(Part {
            bitmap: with_bit(self.bitmap, bit),
            index: at.number(),
        })
    }

    // The entry of a bit is taken out; the answer is the entry and the part without the bit.
    pub fn shrink<S: RunStore>(self, store: &mut S, bit: Bit) -> Result<(S::Item, Part), StoreFault>
        ensures called { Called S.Runs.state S.Runs.memory store.old
            (no_remove S.Runs.model (S.Runs.state store.old) self.index (rank self.bitmap bit.number))
            (S.Runs.model.removed (S.Runs.state store.old) self.index (rank self.bitmap bit.number))
            store.new }
        ensures answer { Tells told result (no_remove S.Runs.model (S.Runs.state store.old) self.index (rank self.bitmap bit.number))
            (λ x. (nth (S.Runs.model.live (S.Runs.state store.old) self.index) (rank self.bitmap bit.number) ≡ Some x.0)
            × (x.1.bitmap ≡ without_bit self.bitmap bit.number)
            × (x.1.index ≡ S.Runs.model.removed_at (S.Runs.state store.old) self.index (rank self.bitmap bit.number))) }
    {
        let (e, at) = store.remove(
            <S::Item as Entry>::Index::at(self.index),
            compute_slot(self.bitmap, bit),
        )?;
        Ok((
            e,
            Part {
                bitmap: without_bit(self.bitmap, bit),
                index: at.number(),
            },
        ))
    }
}
