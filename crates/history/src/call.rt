// The calls of a history, and their answers.
use bitmap::Bit;
use runs::entry::NodeRow;

// A call, with its path, bit and value.
#[derive(Clone, Copy)]
pub enum Call<'a, E> {
    Get(&'a [u8], Bit),
    Put(&'a [u8], Bit, E),
    Swap(&'a [u8], Bit, E),
    Take(&'a [u8], Bit),
    Add(&'a [u8], Bit),
    Plant(&'a [u8], Bit, E),
    Drop(&'a [u8], Bit),
    Show(&'a [u8]),
}

// What an accepted call hands out: nothing, a value, or a node's record.
#[derive(Clone, Copy, Debug, PartialEq, Eq)]
pub enum Answer<E> {
    Done,
    Value(E),
    Node(NodeRow),
}
