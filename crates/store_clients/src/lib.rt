// Clients of run stores, proved once from what every store promises.
#![tactic(auto)]

ghost use Rattle.std.specs.Prelude.{◌≡◌, true, false, IfOk, IfErr, MatchResult};
ghost use Rattle.store_clients.specs.Trips.{ends, whole, Removes, Left};
ghost use Rattle.runs.specs.Calls.{Says};
ghost use Rattle.runs.specs.Runs.{count};
ghost use Rattle.quota_model.specs.Quotas.{capped};
ghost use Rattle.quota.specs.Layer.{told_occupied, no_start, upper_state};

use bitmap::Slot;
use quota::quota::{Occupied, Quota};
use runs::entry::Entry;
use runs::fault::StoreFault;
use runs::store::RunStore;

// Opens a run of `first`, puts `second` before it and takes both out again: true where every call is accepted, and then the store
// means what it meant. A call that is refused ends it. Where the second entry is refused the first one is taken out again,
// so that nothing is left unless a removal is refused; what is left then is one run more.
pub fn there_and_back<E: Entry, S: RunStore<Item = E>>(store: &mut S, first: E, second: E) -> bool
    ensures answer { result ≡ whole S.Runs.model (S.Runs.state store.old) first second }
    ensures after { S.Runs.state store.new ≡ ends S.Runs.model (S.Runs.state store.old) first second }
    ensures back { result ≡ true → S.Runs.model.live (S.Runs.state store.new) ≡ S.Runs.model.live (S.Runs.state store.old) }
    ensures left { Left (S.Runs.model.live (S.Runs.state store.old)) first second (S.Runs.model.live (S.Runs.state store.new)) }
    ensures removes { Removes S.Runs.model E.Entry.LONGEST S.Runs.Valid → S.Runs.model.live (S.Runs.state store.new) ≡ S.Runs.model.live (S.Runs.state store.old) }
{
    go_and_return(store, first, second).is_ok()
}

fn go_and_return<E: Entry, S: RunStore<Item = E>>(
    store: &mut S,
    first: E,
    second: E,
) -> Result<(), StoreFault>
    ensures answer { MatchResult result (λ _. whole S.Runs.model (S.Runs.state store.old) first second ≡ true) (λ _. whole S.Runs.model (S.Runs.state store.old) first second ≡ false) }
    ensures after { S.Runs.state store.new ≡ ends S.Runs.model (S.Runs.state store.old) first second }
{
    let front = Slot { number: 0 };
    let at = store.open(first)?;
    let to = match store.insert(at, front, second) {
        Ok(to) => to,
        Err(f) => {
            let _ = store.remove(at, front);
            return Err(f);
        }
    };
    let (_, last) = store.remove(to, front)?;
    store.remove(last, front)?;
    Ok(())
}

// The same in a store under two limits, one over the other; the store comes back under them, or as it was given.
pub fn under_two_limits<E: Entry, S: RunStore<Item = E>>(
    below: S,
    inner: u32,
    outer: u32,
    first: E,
    second: E,
) -> Result<(bool, Quota<Quota<S>>), Occupied<S>>
    ensures answer { Says told_occupied result (no_start (count (S.Runs.model.live (S.Runs.state below)))) }
    ensures trip { IfOk result (λ x. x.0 ≡ whole (capped (capped S.Runs.model)) record { limit = outer; below = record { limit = inner; below = S.Runs.state below } } first second) }
    ensures after { IfOk result (λ x. upper_state S.Runs x.1 ≡ ends (capped (capped S.Runs.model)) record { limit = outer; below = record { limit = inner; below = S.Runs.state below } } first second) }
    ensures refused { IfErr result (λ o. o.below ≡ below) }
{
    let lower = Quota::start(below, inner)?;
    let mut upper = Quota::start(lower, outer).map_err(|o| Occupied {
        below: o.below.into_below(),
    })?;
    let back = there_and_back(&mut upper, first, second);
    Ok((back, upper))
}
