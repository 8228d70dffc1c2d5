// A ledger has one word a cell. A word is the number of entries of the run that begins at its cell, 0 where none begins, and 64 times a link.
ghost use Rattle.std.specs.Prelude.{◌≡◌, ◌%◌, slice_index};

// How many entries the run at an index has: a number, which is 0 where none begins there.
pub fn run_length(ledger: &[u64], at: u32) -> u32
    ensures { result ≡ slice_index ledger.now at % 64 }
{
    match ledger.get(at as usize) {
        Some(word) => (*word % 64) as u32,
        None => 0,
    }
}
