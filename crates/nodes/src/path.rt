// The path reader: every byte of a path is a child bit.
ghost use Rattle.runs.specs.Calls.{Says};
ghost use Rattle.table_model.specs.Refusals.{bad_path};
ghost use Rattle.nodes.specs.Told.{told_path};

use crate::fault::PathFault;

pub const LONGEST_PATH: usize = 25;

pub fn read_path(path: &[u8]) -> Result<(), PathFault>
    ensures { Says told_path result (bad_path path.now) }
{
    if path.len() > LONGEST_PATH {
        return Err(PathFault::TooLong);
    }
    match path.iter().position(|b| *b > 31) {
        Some(position) => Err(PathFault::Byte(position as u32)),
        None => Ok(()),
    }
}
