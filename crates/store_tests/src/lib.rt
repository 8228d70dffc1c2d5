// Tests of the run stores at their boundaries, for each kind of entry. Every test is proved, and then run.
#![tactic(auto)]

ghost use Rattle.std.specs.Prelude.{◌≤◌};

use bitmap::Slot;
use flat::flat::Flat;
use quota::quota::Quota;
use runs::entry::Entry;
use runs::lent::lent;
use runs::store::RunStore;
use store_clients::{there_and_back, under_two_limits};
use tiered::Tiered;

// Opens a run and inserts at its end until there are n entries or the store refuses; how many there are then.
pub fn fill<E: Entry, S: RunStore<Item = E>>(store: &mut S, e: E, n: u32) -> u32
    ensures { result ≤ n }
{
    if n == 0 {
        return 0;
    }
    let Ok(mut at) = store.open(e) else { return 0 };
    // the slot that is the run's length, and no place in a list
    for k in 1..n {
        match store.insert(at, Slot { number: k }, e) {
            Ok(i) => at = i,
            Err(_) => return k,
        }
    }
    n
}

// The same in a tiered store over the first n cells.
pub fn filled<E: Entry>(cells: &mut [E], ledger: &mut [u64], n: usize, e: E) -> u32
    ensures { result ≤ 40 }
{
    if n > cells.len() || n > ledger.len() {
        return 0;
    }
    let mut store = Tiered::new(&mut cells[0..n], &mut ledger[0..n]);
    fill(&mut store, e, 40)
}

#[cfg(test)]
mod tests {
    use super::*;
    use runs::entry::{NodeRow, StreamRecord};

    // Cells lent, and how many entries one run gets in them: at each size exactly full, and one short.
    const VALUES: [(usize, u32); 15] = [
        (0, 0),
        (1, 1),
        (2, 1),
        (3, 2),
        (6, 2),
        (7, 4),
        (14, 4),
        (15, 8),
        (30, 8),
        (31, 16),
        (54, 16),
        (55, 24),
        (85, 24),
        (86, 31),
        (90, 31),
    ];

    // The first row that is not met: in so many cells, a run of e gets another number of entries than the row says, the one answered here.
    fn misfit<E: Entry>(
        cells: &mut [E],
        ledger: &mut [u64],
        e: E,
        rows: &[(usize, u32)],
    ) -> Option<(usize, u32)> {
        for (n, most) in rows {
            let got = filled(cells, ledger, *n, e);
            if got != *most {
                return Some((*n, got));
            }
        }
        None
    }

    #[test]
    fn plain_numbers_at_each_size(rt: HostRuntime) {
        let mut cells = [0u32; 90];
        let mut ledger = [7u64; 90];
        assert_eq!(rt; misfit(&mut cells, &mut ledger, 5, &VALUES), None);
    }

    #[test]
    fn stream_records_at_each_size(rt: HostRuntime) {
        let stream = StreamRecord {
            output: 3,
            queue: 1,
            rate: 4000,
        };
        let mut cells = [stream; 90];
        let mut ledger = [0u64; 90];
        assert_eq!(rt; misfit(&mut cells, &mut ledger, stream, &VALUES), None);
    }

    #[test]
    fn node_rows_have_runs_of_32(rt: HostRuntime) {
        let row = NodeRow::default();
        let mut cells = [row; 90];
        let mut ledger = [0u64; 90];
        let rows = [(0, 0), (1, 1), (86, 24), (87, 32), (90, 32)];
        assert_eq!(rt; misfit(&mut cells, &mut ledger, row, &rows), None);
    }

    // Two entries in and out again under a quota; false where a call is refused.
    fn limited<S: RunStore<Item = u32> + Drop>(store: S, limit: u32) -> bool {
        Quota::start(store, limit).is_ok_and(|mut q| there_and_back(&mut q, 1, 2))
    }

    // The same under a quota over a quota.
    fn twice_limited<S: RunStore<Item = u32> + Drop>(store: S, inner: u32, outer: u32) -> bool {
        under_two_limits(store, inner, outer, 1, 2).is_ok_and(|(back, _)| back)
    }

    // One client, proved for every store, on four of them.
    #[test]
    fn two_entries_go_in_and_out(rt: HostRuntime) {
        let mut cells = [0u32; 31];
        let mut ledger = [0u64; 31];
        assert!(rt; there_and_back(&mut Tiered::new(&mut cells, &mut ledger), 1, 2));
        assert!(rt; there_and_back(&mut Flat::new(&mut cells, &mut ledger), 1, 2));
        assert!(rt; limited(Tiered::new(&mut cells, &mut ledger), 2));
        assert!(rt; !limited(Tiered::new(&mut cells, &mut ledger), 1));
        assert!(rt; twice_limited(Flat::new(&mut cells, &mut ledger), 2, 2));
        assert!(rt; !twice_limited(Flat::new(&mut cells, &mut ledger), 1, 2));
    }

    #[test]
    fn memory_of_two_lengths_is_refused_11(rt: HostRuntime) {
        let cells = [0u32; 3];
        let ledger = [0u64; 4];
        assert!(rt; lent(&cells, &ledger).is_err());
        assert!(rt; lent(&cells, &ledger[0..3]).is_ok());
    }
}
