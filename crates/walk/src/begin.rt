// The begin of a walk.
ghost use Rattle.std.specs.Prelude.{◌≡◌};
ghost use Rattle.table_model.specs.Tree.{walk};
ghost use Rattle.trunk.specs.Meaning.{tree};
ghost use Rattle.walk.specs.Meaning.{to_come};

use crate::Walk;
use runs::entry::{Entry, NodeRow};
use runs::store::RunStore;
use table::Table;

// A walk of all that a table holds.
pub fn begin<E: Entry, N: RunStore<Item = NodeRow>, V: RunStore<Item = E>>(
    table: Table<N, V>,
) -> Walk<N, V>
    ensures trunk { result.trunk ≡ table.trunk }
    ensures to_come { to_come N.Runs V.Runs result ≡ walk 25 (tree N.Runs V.Runs table.trunk) }
{
    Walk::over(table.into_trunk())
}
