// A short history from its start to its end: that one succeeds is beyond a clause, since none can say that memory is left.
use crate::call::{Answer, Call};
use crate::fresh::{Lent, WatchTiered, history_over_fresh};
use crate::left::{Last, Left};
use bitmap::Bit;
use nodes::fault::Fault;
use runs::entry::NodeRow;
use table::Table;
use tiered::Tiered;

// How many answers were seen, and what the value store had claimed at the last of them.
#[derive(Drop)]
struct Seen {
    answers: u32,
    claimed: u32,
}

impl WatchTiered<u32> for Seen {
    fn see(
        &mut self,
        table: &Table<Tiered<'_, NodeRow>, Tiered<'_, u32>>,
        _answer: &Result<Answer<u32>, Fault>,
    ) {
        self.answers = self.answers.saturating_add(1);
        self.claimed = table.values().claimed();
    }
}

#[test]
fn a_history_with_a_refusal_and_a_walk(rt: HostRuntime) {
    let mut node_cells = [NodeRow::default(); 4];
    let mut node_ledger = [0u64; 4];
    let mut value_cells = [0u32; 4];
    let mut value_ledger = [0u64; 4];
    let nodes = Lent {
        cells: &mut node_cells,
        ledger: &mut node_ledger,
    };
    let values = Lent {
        cells: &mut value_cells,
        ledger: &mut value_ledger,
    };
    let calls = [
        Call::Put(&[], Bit { number: 4 }, 7),
        Call::Put(&[], Bit { number: 4 }, 8),
        Call::Plant(&[], Bit { number: 2 }, 9),
        Call::Swap(&[], Bit { number: 4 }, 5),
        Call::Get(&[2], Bit { number: 0 }),
    ];
    let mut seen = Seen {
        answers: 0,
        claimed: 0,
    };
    let told = [
        Ok(Answer::Done),
        Err(Fault::Taken),
        Ok(Answer::Done),
        Ok(Answer::Value(7)),
        Ok(Answer::Value(9)),
    ];
    match history_over_fresh(rt.alloc(), nodes, values, &calls, Last::End(1), &mut seen) {
        Ok(played) => {
            assert!(rt; played.answers.as_slice() == told.as_slice());
            assert!(rt; played.nexts.as_slice() == [Some((Bit { number: 4 }, 5))].as_slice());
            assert!(rt; matches!(&played.left, Left::Ended(1, _, _)));
        }
        Err(_) => assert!(rt; false),
    }
    assert_eq!(rt; seen.answers, 5);
    assert_eq!(rt; seen.claimed, 2);
}
