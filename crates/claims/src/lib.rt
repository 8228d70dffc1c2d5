// Stores that tell how many of their cells have ever been in a group: a table's programs and tests ask for it, whatever store it is.
#![tactic(auto)]

ghost use Rattle.std.specs.Prelude.{◌≡◌, ℕ};

use flat::flat::Flat;
use quota::quota::Quota;
use runs::entry::Entry;
use runs::store::RunStore;
use tiered::Tiered;

pub trait Claims {
    ghost claimed: { Self → ℕ };

    // The claimed cells; of a layer, those of the store below.
    fn claimed_cells(&self) -> u32
        ensures { result ≡ claimed self.now };
}

impl<'a, E: Entry> Claims for Tiered<'a, E> {
    ghost use Rattle.tiered.specs.Meaning.{store_state};

    ghost claimed = { λ t. (store_state t).claimed };

    fn claimed_cells(&self) -> u32 {
        Tiered::claimed(self)
    }
}

impl<'a, E: Entry> Claims for Flat<'a, E> {
    ghost use Rattle.flat.specs.Meaning.{store_state};

    ghost claimed = { λ f. (store_state f).claimed };

    fn claimed_cells(&self) -> u32 {
        Flat::claimed(self)
    }
}

impl<E: Entry, S: RunStore<Item = E> + Claims> Claims for Quota<S> {
    ghost claimed = { λ q. S.Claims.claimed q.below };

    fn claimed_cells(&self) -> u32 {
        self.below().claimed_cells()
    }
}
