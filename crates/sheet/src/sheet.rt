// Sheets, with what every sheet keeps.
ghost use Rattle.std.specs.Prelude.{◌≡◌, ◌*◌, ◌≤◌, length};
ghost use Rattle.std.specs.Option.{unwrap_or};
ghost use Rattle.sheet.specs.Cells.{Sound, Typed};
ghost use Rattle.sheet.specs.Held.{types_of, writes_of};

use crate::columns::Columns;
use crate::list::WriteList;
use values::Cell;

mod edits;
mod memory;
mod standing;
mod trials;

// Cells lent for reading, row by row, and what stands over them: a list of writes, and the trial that is
// open, by the number of writes that stood when it began.
#[derive(Drop)]
pub struct Sheet<'a> {
    cells: &'a [Cell],
    rows: u32,
    columns: Columns,
    writes: WriteList,
    trial: Option<u32>,
    ghost low: { rows ≤ 4096 },
    ghost filled: { length cells.now ≡ rows * length (types_of columns) },
    ghost sound: { Sound (types_of columns) cells.now },
    ghost typed: { Typed (types_of columns) rows (writes_of writes) },
    ghost begun: { unwrap_or trial 0 ≤ length (writes_of writes) },
}
