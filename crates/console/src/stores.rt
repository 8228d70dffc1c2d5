// Stores by their names in a script. What is done with a store is told once, whatever store it is.
use crate::line::{Base, StoreKind};
use claims::Claims;
use flat::flat::Flat;
use quota::quota::Quota;
use runs::entry::Entry;
use runs::store::RunStore;
use std::io;
use tiered::Tiered;

// What is done with a store of entries.
pub trait Client<E: Entry + Clone + Default>: Drop + Sized {
    fn with<S: RunStore<Item = E> + Claims + Drop>(self, store: S) -> io::Result<()>;

    // With a store of a kind in memory of its own, under its quotas.
    final fn with_kind(self, rt: &HostRuntime, kind: StoreKind) -> io::Result<()> {
        let mut cells = vec![in rt.alloc(); E::default(); kind.cells]?;
        let mut ledger = vec![in rt.alloc(); 0u64; kind.cells]?;
        let client = Limited {
            limit: kind.inner,
            client: Limited {
                limit: kind.outer,
                client: self,
            },
        };
        match kind.base {
            Base::Tiered => client.with(Tiered::new(cells.as_mut_slice(), ledger.as_mut_slice())),
            Base::Flat => client.with(Flat::new(cells.as_mut_slice(), ledger.as_mut_slice())),
        }
    }
}

// A quota over the store first, where there is a limit. No run is live in it, so it is not refused.
#[derive(Drop)]
struct Limited<C> {
    limit: Option<u32>,
    client: C,
}

impl<E: Entry + Clone + Default, C: Client<E>> Client<E> for Limited<C> {
    fn with<S: RunStore<Item = E> + Claims + Drop>(self, store: S) -> io::Result<()> {
        let Limited { limit, client } = self;
        match limit {
            None => client.with(store),
            Some(limit) => match Quota::start(store, limit) {
                Ok(quota) => client.with(quota),
                Err(_) => Ok(()),
            },
        }
    }
}
