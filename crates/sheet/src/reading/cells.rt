// The cells of a reading: made, written and lent.
ghost use Rattle.std.specs.Prelude.{◌≡◌, ◌<◌, ◌≤◌, length, slice_set};
ghost use Rattle.sheet.specs.Held.{cells_of};

use super::Reading;
use values::Cell;

impl Reading {
    pub(crate) fn new(cells: &[Cell]) -> Reading
        requires { length cells.now ≤ 8 }
        ensures { cells_of result ≡ cells.now }
    {
        let len = cells.len();
        let mut all = [Cell::Binary(false); 8];
        all[..len].copy_from_slice(cells);
        Reading { cells: all, len }
    }

    pub(crate) fn len(&self) -> usize
        ensures { result ≡ length (cells_of self.now) }
    {
        self.len
    }

    pub fn as_slice(&self) -> &[Cell]
        ensures { result.now ≡ cells_of self.now }
    {
        &self.cells[..self.len]
    }

    pub(crate) fn set(&mut self, column: usize, cell: Cell)
        requires { column < length (cells_of self.old) }
        ensures { cells_of self.new ≡ slice_set (cells_of self.old) column cell }
    {
        self.cells[column] = cell;
    }
}
