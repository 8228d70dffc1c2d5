// The memory that a store is lent: cells, and a ledger of one word a cell.
ghost use Rattle.std.specs.Prelude.{◌≡◌, length, replicate};
ghost use Rattle.runs.specs.Calls.{Says, no_store, taken};
ghost use Rattle.runs.specs.Refusals.{told_lent};

use crate::fault::LentFault;

// How many indexes there are.
pub const INDEXES: usize = 16777216;

// Whether a store can be made of these, asked before they are lent.
pub fn lent<E>(cells: &[E], ledger: &[u64]) -> Result<(), LentFault>
    ensures { Says told_lent result (no_store (length cells.now) (length ledger.now)) }
{
    if cells.len() == ledger.len() && cells.len() <= INDEXES {
        Ok(())
    } else {
        Err(LentFault::Lengths)
    }
}

// What a store takes of these: all of both, or nothing where `lent` refuses them. The ledger is cleared.
pub fn take<'a, E>(cells: &'a mut [E], ledger: &'a mut [u64]) -> (&'a mut [E], &'a mut [u64])
    ensures cells { length result.0.now ≡ taken (length cells.old) (length ledger.old) }
    ensures ledger { result.1.now ≡ replicate (taken (length cells.old) (length ledger.old)) 0 }
{
    match lent(cells, ledger) {
        Ok(()) => {
            ledger.fill(0);
            (cells, ledger)
        }
        Err(_) => (&mut cells[..0], &mut ledger[..0]),
    }
}
