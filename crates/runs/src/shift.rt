// Entries moved inside a lent slice, for every kind of entry. A range that does not lie in the slice is refused 21.
ghost use Rattle.std.specs.Prelude.{◌≡◌, ◌+◌, ◌&&◌, ◌||◌, length, nat_le, nat_lt};
ghost use Rattle.runs.specs.Lists.{nth};
ghost use Rattle.runs.specs.Refusals.{told};
ghost use Rattle.runs.specs.Calls.{Says};
ghost use Rattle.runs.specs.Shift.{Right, Left, Copied, Moves, in_slice};

use crate::fault::StoreFault;

// The entries at lo .. hi - 1 go one place to the right.
pub fn shift_right<E: Copy>(cells: &mut [E], lo: usize, hi: usize) -> Result<(), StoreFault>
    ensures answer { Says told result (in_slice (nat_le lo hi && nat_lt hi (length cells.old))) }
    ensures after { Moves result cells.old cells.new (λ xs ys. Right xs ys lo hi) }
{
    if lo <= hi && hi < cells.len() {
        cells.copy_within(lo..hi, lo + 1);
        Ok(())
    } else {
        Err(StoreFault::BadSlot)
    }
}

// The entries at lo + 1 .. hi - 1 go one place to the left, over the entry at lo.
pub fn shift_left<E: Copy>(cells: &mut [E], lo: usize, hi: usize) -> Result<(), StoreFault>
    ensures answer { Says told result (in_slice (nat_lt lo hi && nat_le hi (length cells.old))) }
    ensures after { Moves result cells.old cells.new (λ xs ys. Left xs ys lo hi) }
{
    if lo < hi && hi <= cells.len() {
        cells.copy_within(lo + 1..hi, lo);
        Ok(())
    } else {
        Err(StoreFault::BadSlot)
    }
}

// The n entries from `from` on are written from `to` on; the two ranges have no cell in common.
pub fn copy_run<E: Copy>(
    cells: &mut [E],
    from: usize,
    to: usize,
    n: usize,
) -> Result<(), StoreFault>
    ensures answer { Says told result (in_slice (nat_le (from + n) (length cells.old) && (nat_le (to + n) (length cells.old) && (nat_le (from + n) to || nat_le (to + n) from)))) }
    ensures after { Moves result cells.old cells.new (λ xs ys. Copied xs ys from to n) }
{
    if ends_in(from, n, cells.len())
        && ends_in(to, n, cells.len())
        && (from + n <= to || to + n <= from)
    {
        cells.copy_within(from..from + n, to);
        Ok(())
    } else {
        Err(StoreFault::BadSlot)
    }
}

// The entry of a cell, if there is such a cell.
pub fn entry_in<E: Copy>(cells: &[E], i: usize) -> Option<E>
    ensures { result ≡ nth cells.now i }
{
    cells.get(i).copied()
}

// Whether n places from i on lie below the end.
fn ends_in(i: usize, n: usize, end: usize) -> bool
    ensures { result ≡ nat_le (i + n) end }
{
    i <= end && n <= end - i
}
