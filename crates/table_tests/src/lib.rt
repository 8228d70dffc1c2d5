// The worked figures of a table, computed. Every test is proved, and then run.
#![tactic(auto)]

pub mod play;

#[cfg(test)]
mod tests {
    use crate::play::{Answer, Call, Line, play, play_limited, play_tiered, start_twice};
    use flat::flat::Flat;
    use nodes::fault::{Fault, PathFault};
    use runs::entry::NodeRow;
    use runs::fault::StoreFault;
    use tiered::Tiered;

    const DONE: Result<Answer, Fault> = Ok(Answer::Done);

    // A node with values and no child.
    fn holding(data_bitmap: u32, data_index: u32) -> Result<Answer, Fault> {
        Ok(Answer::Node(NodeRow {
            data_bitmap,
            data_index,
            ..NodeRow::default()
        }))
    }

    // Five puts at a fresh root, with the index of its run after each, and the claimed cells at last.
    fn five_puts(places: [u32; 5], claimed: u32) -> [Line<'static>; 11] {
        let [first, second, third, fourth, fifth] = places;
        [
            (Call::Put(&[], 0, 50), DONE),
            (Call::Show(&[]), holding(0b1, first)),
            (Call::Put(&[], 1, 51), DONE),
            (Call::Show(&[]), holding(0b11, second)),
            (Call::Put(&[], 2, 52), DONE),
            (Call::Show(&[]), holding(0b111, third)),
            (Call::Put(&[], 3, 53), DONE),
            (Call::Show(&[]), holding(0b1111, fourth)),
            (Call::Put(&[], 4, 54), DONE),
            (Call::Show(&[]), holding(0b1_1111, fifth)),
            (Call::Claimed, Ok(Answer::Number(claimed))),
        ]
    }

    // Five puts of which the last is refused, and changes nothing.
    fn fifth_refused(fault: StoreFault) -> [Line<'static>; 7] {
        [
            (Call::Put(&[], 0, 50), DONE),
            (Call::Put(&[], 1, 51), DONE),
            (Call::Put(&[], 2, 52), DONE),
            (Call::Put(&[], 3, 53), DONE),
            (Call::Show(&[]), holding(0b1111, 3)),
            (Call::Put(&[], 4, 54), Err(Fault::Values(fault))),
            (Call::Show(&[]), holding(0b1111, 3)),
        ]
    }

    #[test]
    fn records_stand_in_the_order_of_their_bits(rt: HostRuntime) {
        let script = [
            (Call::Put(&[], 1, 10), DONE),
            (Call::Put(&[], 4, 20), DONE),
            (Call::Put(&[], 9, 30), DONE),
            (Call::Put(&[], 6, 40), DONE),
            (Call::Record(&[], 0), Ok(Answer::Number(10))),
            (Call::Record(&[], 1), Ok(Answer::Number(20))),
            (Call::Record(&[], 2), Ok(Answer::Number(40))),
            (Call::Record(&[], 3), Ok(Answer::Number(30))),
        ];
        assert_eq!(rt; play_tiered(0, 7, &script), script.len());
    }

    // Groups of 1, 2, 4 and 8 cells are claimed, one after the other.
    #[test]
    fn a_growing_run_moves(rt: HostRuntime) {
        let script = five_puts([0, 1, 3, 3, 7], 15);
        assert_eq!(rt; play_tiered(0, 15, &script), script.len());
    }

    #[test]
    fn a_put_with_no_group_left_changes_nothing(rt: HostRuntime) {
        let script = fifth_refused(StoreFault::NoGroup(0));
        assert_eq!(rt; play_tiered(0, 14, &script), script.len());
    }

    #[test]
    fn a_shrinking_run_moves_back(rt: HostRuntime) {
        let script = [
            (Call::Put(&[], 0, 50), DONE),
            (Call::Put(&[], 1, 51), DONE),
            (Call::Put(&[], 2, 52), DONE),
            (Call::Put(&[], 3, 53), DONE),
            (Call::Put(&[], 4, 54), DONE),
            (Call::Take(&[], 2), Ok(Answer::Number(52))),
            (Call::Show(&[]), holding(0b1_1011, 3)),
            (Call::Claimed, Ok(Answer::Number(15))),
        ];
        assert_eq!(rt; play_tiered(0, 15, &script), script.len());
    }

    // Two values at the root and one in a child, and then one of the root's is taken.
    fn take_beside_a_child(taken: Result<Answer, Fault>) -> [Line<'static>; 5] {
        [
            (Call::Put(&[], 0, 50), DONE),
            (Call::Put(&[], 1, 51), DONE),
            (Call::Add(&[], 0), DONE),
            (Call::Put(&[0], 0, 52), DONE),
            (Call::Take(&[], 0), taken),
        ]
    }

    // A run of two goes to a group of one cell. With 3 cells the child has the only one; a fourth is claimed.
    #[test]
    fn a_take_needs_a_smaller_group(rt: HostRuntime) {
        let refused = take_beside_a_child(Err(Fault::Values(StoreFault::NoGroup(0))));
        assert_eq!(rt; play_tiered(1, 3, &refused), refused.len());
        let accepted = take_beside_a_child(Ok(Answer::Number(50)));
        assert_eq!(rt; play_tiered(1, 4, &accepted), accepted.len());
    }

    #[test]
    fn the_last_bits_pass(rt: HostRuntime) {
        let script = [
            (Call::Put(&[], 30, 50), DONE),
            (Call::Put(&[], 31, 51), Err(Fault::BadBit)),
            (Call::Add(&[], 31), DONE),
            (Call::Add(&[], 32), Err(Fault::BadBit)),
        ];
        assert_eq!(rt; play_tiered(3, 3, &script), script.len());
    }

    #[test]
    fn a_table_starts_with_no_cells(rt: HostRuntime) {
        let none = StoreFault::NoGroup(0);
        let script = [
            (Call::Put(&[], 0, 50), Err(Fault::Values(none))),
            (Call::Add(&[], 0), Err(Fault::Nodes(none))),
            (Call::Show(&[]), Ok(Answer::Node(NodeRow::default()))),
        ];
        assert_eq!(rt; play_tiered(0, 0, &script), script.len());
    }

    #[test]
    fn paths_are_refused(rt: HostRuntime) {
        let long = [0u8; 26];
        let script = [
            (Call::Show(&long), Err(Fault::Path(PathFault::TooLong))),
            (
                Call::Show(&[1, 2, 3, 32]),
                Err(Fault::Path(PathFault::Byte(3))),
            ),
            (Call::Add(&[], 5), DONE),
            (Call::Add(&[5], 6), DONE),
            (Call::Show(&[5, 6, 7]), Err(Fault::NoNode(2))),
            (Call::Get(&[5, 6, 7, 8], 0), Err(Fault::NoNode(2))),
        ];
        assert_eq!(rt; play_tiered(2, 0, &script), script.len());
    }

    #[test]
    fn no_child_is_below_the_longest_path(rt: HostRuntime) {
        let path = [0u8; 25];
        let mut script = [(Call::Put(&path, 0, 50), DONE); 27];
        for (depth, line) in script.iter_mut().take(25).enumerate() {
            *line = (Call::Add(&path[..depth], 0), DONE);
        }
        script[25] = (Call::Add(&path, 0), Err(Fault::TooDeep));
        assert_eq!(rt; play_tiered(25, 1, &script), script.len());
    }

    #[test]
    fn places_are_taken_or_missing(rt: HostRuntime) {
        let script = [
            (Call::Put(&[], 0, 50), DONE),
            (Call::Put(&[], 0, 51), Err(Fault::Taken)),
            (Call::Get(&[], 0), Ok(Answer::Number(50))),
            (Call::Swap(&[], 0, 53), Ok(Answer::Number(50))),
            (Call::Get(&[], 0), Ok(Answer::Number(53))),
            (Call::Get(&[], 1), Err(Fault::Missing)),
            (Call::Swap(&[], 1, 51), Err(Fault::Missing)),
            (Call::Take(&[], 1), Err(Fault::Missing)),
            (Call::Drop(&[], 2), Err(Fault::Missing)),
            (Call::Plant(&[], 2, 52), DONE),
            (Call::Add(&[], 2), Err(Fault::Taken)),
            (Call::Drop(&[], 2), Err(Fault::NotBare)),
            (Call::Take(&[2], 0), Ok(Answer::Number(52))),
            (Call::Drop(&[], 2), DONE),
        ];
        assert_eq!(rt; play_tiered(1, 2, &script), script.len());
    }

    #[test]
    fn a_live_run_is_refused_12(rt: HostRuntime) {
        let mut rows = [NodeRow::default(); 1];
        let mut row_ledger = [0u64; 1];
        let mut values = [0u32; 1];
        let mut value_ledger = [0u64; 1];
        let nodes = Tiered::new(&mut rows, &mut row_ledger);
        let values = Tiered::new(&mut values, &mut value_ledger);
        assert_eq!(rt; start_twice(nodes, values, 50), Some((12, 50, true)));
    }

    #[test]
    fn a_run_of_a_flat_store_stays(rt: HostRuntime) {
        let mut rows = [NodeRow::default(); 0];
        let mut row_ledger = [0u64; 0];
        let mut values = [0u32; 31];
        let mut value_ledger = [0u64; 31];
        let nodes = Tiered::new(&mut rows, &mut row_ledger);
        let values = Flat::new(&mut values, &mut value_ledger);
        let script = five_puts([0; 5], 31);
        assert_eq!(rt; play(nodes, values, &script), script.len());
    }

    #[test]
    fn a_put_beyond_a_limit_changes_nothing(rt: HostRuntime) {
        let mut rows = [NodeRow::default(); 0];
        let mut row_ledger = [0u64; 0];
        let mut values = [0u32; 15];
        let mut value_ledger = [0u64; 15];
        let nodes = Tiered::new(&mut rows, &mut row_ledger);
        let values = Tiered::new(&mut values, &mut value_ledger);
        let script = fifth_refused(StoreFault::LimitReached(0));
        assert_eq!(rt; play_limited(nodes, values, 4, &script), script.len());
    }
}
