// A limit on the entries of all runs of a store, and itself a store: over any other store, over another limit too.
ghost use Rattle.std.specs.Prelude.{◌≡◌, ℕ, MatchResult};
ghost use Rattle.runs.specs.Refusals.{told};
ghost use Rattle.runs.specs.Runs.{count, total};
ghost use Rattle.runs.specs.Calls.{Says};
ghost use Rattle.quota_model.specs.Quotas.{State, up, capped};
ghost use Rattle.quota_model.proofs.Lawful.{lawful};

use bitmap::Slot;
use runs::entry::Entry;
use runs::fault::StoreFault;
use runs::store::{RunStore, Runs};
use std::fmt;

#[derive(Drop)]
pub struct Quota<S: Runs> {
    below: S,
    limit: u32,
    used: u32,
    // the entries of all runs are counted
    ghost counted: { used ≡ total (S.Runs.model.live (S.Runs.state below)) },
}

// A store with a live run, handed back as it was.
#[derive(Drop)]
pub struct Occupied<S> {
    pub below: S,
}

impl<S> Occupied<S> {
    ghost use Rattle.quota.specs.Layer.{told_occupied};

    // One of the two things that a refusal tells; a conversion would give it no name.
    pub fn number(&self) -> u32
        ensures { result ≡ (told_occupied self.now).number }
    {
        12
    }
}

impl<S> fmt::Display for Occupied<S> {
    fn fmt<W: fmt::Write>(&self, f: &mut fmt::Formatter<W>) -> fmt::Result {
        write!(f, "{}", self.number())
    }
}

impl<S: Runs> Quota<S> {
    ghost use Rattle.quota.specs.Layer.{Started, no_start, told_occupied};

    // A limit over a store with no live run. Any other is refused 12 and handed back.
    pub fn start(below: S, limit: u32) -> Result<Quota<S>, Occupied<S>>
        ensures answer { Says told_occupied result (no_start (count (S.Runs.model.live (S.Runs.state below)))) }
        ensures after { MatchResult result (λ q. Started S.Runs below limit q) (λ o. o.below ≡ below) }
    {
        if below.count() > 0 {
            return Err(Occupied { below });
        }
        Ok(Quota {
            below,
            limit,
            used: 0,
        })
    }

    // The store below, to look at.
    pub fn below(&self) -> &S
        ensures { result.now ≡ self.now.below }
    {
        &self.below
    }

    // The store below, without the limit.
    pub fn into_below(self) -> S
        ensures { result ≡ self.below }
    {
        self.below
    }
}

// A refusal of the store below crosses this layer.
fn crossed(f: StoreFault) -> StoreFault
    ensures { told result ≡ up (told f) }
{
    match f {
        StoreFault::NoGroup(n) => StoreFault::NoGroup(n.saturating_add(1)),
        StoreFault::LimitReached(n) => StoreFault::LimitReached(n.saturating_add(1)),
        other => other,
    }
}

impl<E: Entry, S: Runs<Item = E>> Runs for Quota<S> {
    ghost use Rattle.quota.specs.Layer.{store_state, memory_of};

    type Item = E;

    ghost State = { State S.Runs.State };

    ghost model = { capped S.Runs.model };

    ghost state = { λ q. store_state S.Runs q };

    ghost Valid = { λ s. S.Runs.Valid s.below };

    ghost Memory = { S.Runs.Memory × ℕ × ℕ };

    ghost memory = { λ q. memory_of S.Runs q };

    fn count(&self) -> u32 {
        self.below.count()
    }

    fn length(&self, at: E::Index) -> u32 {
        self.below.length(at)
    }

    fn grow(&self, n: u32) -> Result<(), StoreFault> {
        if self.used == self.limit && n < E::LONGEST {
            return Err(StoreFault::LimitReached(0));
        }
        self.below.grow(n).map_err(crossed)
    }

    fn shrink(&self, n: u32) -> Result<(), StoreFault> {
        self.below.shrink(n).map_err(crossed)
    }

    ghost lawful = { lawful S.Runs.lawful };

    ghost valid = { λ q. S.Runs.valid q.below };
}

impl<E: Entry, S: RunStore<Item = E>> RunStore for Quota<S> {
    fn entry(&self, at: E::Index, slot: Slot) -> Result<E, StoreFault> {
        self.below.entry(at, slot)
    }

    // The number of entries stays.
    fn exchange(&mut self, at: E::Index, slot: Slot, e: E) -> Result<E, StoreFault> {
        self.below.exchange(at, slot, e)
    }

    // A limit that is not reached refuses nothing, so that the store below judges alone: it is asked once, through however many limits.
    fn open(&mut self, e: E) -> Result<E::Index, StoreFault> {
        if self.used == self.limit {
            return Err(StoreFault::LimitReached(0));
        }
        let at = self.below.open(e).map_err(crossed)?;
        self.used += 1;
        Ok(at)
    }

    // The limit comes last: where no run is live, or the slot is beyond its range, that is the refusal.
    fn insert(&mut self, at: E::Index, slot: Slot, e: E) -> Result<E::Index, StoreFault> {
        if self.used == self.limit {
            self.may_insert(at, slot)?;
        }
        let to = self.below.insert(at, slot, e).map_err(crossed)?;
        self.used += 1;
        Ok(to)
    }

    fn remove(&mut self, at: E::Index, slot: Slot) -> Result<(E, E::Index), StoreFault> {
        let taken = self.below.remove(at, slot).map_err(crossed)?;
        self.used -= 1;
        Ok(taken)
    }
}
