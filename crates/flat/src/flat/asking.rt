// What a flat store says of its runs, and which calls it will accept. Nothing is written here.
ghost use Rattle.std.specs.Prelude.{◌≡◌};
ghost use Rattle.flat_model.specs.Flat.{State, Valid, flat, has};
ghost use Rattle.flat_model.proofs.Lawful.{lawful};
ghost use Rattle.flat_model.proofs.Known.{known};

use super::Flat;
use runs::entry::Entry;
use runs::fault::StoreFault;
use runs::index::RunIndex;
use runs::ledger::run_length;
use runs::store::Runs;

impl<'a, E: Entry> Flat<'a, E> {
    ghost use Rattle.flat.specs.Meaning.{store_state};

    // How many cells have ever been in a group.
    pub fn claimed(&self) -> u32
        ensures { result ≡ (store_state self.now).claimed }
    {
        self.claimed
    }

    // Whether a group can be had.
    fn has_group(&self) -> bool
        ensures { result ≡ has E.Entry.LONGEST (store_state self.now) }
    {
        self.head > 0 || self.cells.len() >= (self.claimed + E::LONGEST) as usize
    }
}

impl<'a, E: Entry> Runs for Flat<'a, E> {
    ghost use Rattle.flat.specs.Meaning.{store_state, Memory, memory_of};

    type Item = E;

    ghost State = { State E };

    ghost model = { flat E.Entry.LONGEST };

    ghost state = { λ f. store_state f };

    ghost Valid = { Valid E.Entry.LONGEST };

    ghost Memory = { Memory E };

    ghost memory = { λ f. memory_of f };

    // One field, and below one word of the ledger, as in a tiered store: nothing is left to share.
    fn count(&self) -> u32 {
        self.runs
    }

    fn length(&self, at: E::Index) -> u32 {
        run_length(self.ledger, at.number())
    }

    // Only the first entry needs a group.
    fn grow(&self, n: u32) -> Result<(), StoreFault> {
        if n >= E::LONGEST {
            Err(StoreFault::AtLongest)
        } else if n > 0 || self.has_group() {
            Ok(())
        } else {
            Err(StoreFault::NoGroup(0))
        }
    }

    fn shrink(&self, n: u32) -> Result<(), StoreFault> {
        if n == 0 || n > E::LONGEST {
            return Err(StoreFault::BadSlot);
        }
        Ok(())
    }

    ghost lawful = { lawful E.Entry.LONGEST E.Entry.wide E.Entry.narrow };

    ghost valid = { λ f. (known E.Entry.LONGEST _ _ _ _ _ f.sound).valid };
}
