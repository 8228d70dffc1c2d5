// What a limit on the entries of a store means, and that it makes a run store of every run store.
#![tactic(auto)]

ghost use Rattle.runs.specs.Runs.{Lawful};
ghost use Rattle.quota_model.specs.Quotas.{capped};
ghost use Rattle.quota_model.specs.Laws.{Crossing, Counted};

use runs::entry::Entry;
use runs::store::RunStore;

// A limit over a store that obeys the laws obeys them too.
pub fn limit_is_lawful<E: Entry, S: RunStore<Item = E>>()
    ensures { Lawful (capped S.Runs.model) E.Entry.LONGEST (λ s. S.Runs.Valid s.below) }
{}

// Every call but an exchange changes the number of entries by one.
pub fn entries_are_counted<E: Entry, S: RunStore<Item = E>>()
    ensures { Counted S.Runs.model E.Entry.LONGEST S.Runs.Valid }
{}

// A refusal counts the layers that it crosses.
pub fn layers_are_counted()
    ensures { Crossing }
{}
