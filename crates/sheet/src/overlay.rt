// A row that is given its cells from the latest write back.
ghost use Rattle.std.specs.Prelude.{◌≡◌, ◌<◌, ◌≤◌, true, false, length, replicate, slice_index_or, slice_set};
ghost use Rattle.sheet.specs.Held.{cells_of};

use crate::reading::Reading;
use values::Cell;

// A column keeps the first cell that it is given. With a cell or none for each column, laid over the row at the end,
// a row with many writes took up to twice as long.
#[derive(Drop)]
pub(crate) struct Overlay {
    row: Reading,
    given: [bool; 8],
    ghost flags: { length given ≡ 8 },
}

impl Overlay {
    pub(crate) fn new(first: &[Cell]) -> Overlay
        requires { length first.now ≤ 8 }
        ensures cells { cells_of result.row ≡ first.now }
        ensures given { result.given ≡ replicate 8 false }
    {
        Overlay {
            row: Reading::new(first),
            given: [false; 8],
        }
    }

    pub(crate) fn give(&mut self, column: u32, cell: Cell)
        ensures past { length (cells_of self.old.row) ≤ column → self.new ≡ self.old }
        ensures kept { slice_index_or self.old.given column false ≡ true → self.new ≡ self.old }
        ensures cells { column < length (cells_of self.old.row) → slice_index_or self.old.given column false ≡ false → cells_of self.new.row ≡ slice_set (cells_of self.old.row) column cell }
        ensures given { column < length (cells_of self.old.row) → slice_index_or self.old.given column false ≡ false → self.new.given ≡ slice_set self.old.given column true }
    {
        let column = column as usize;
        if column < self.row.len() && !self.given[column] {
            self.row.set(column, cell);
            self.given[column] = true;
        }
    }

    pub(crate) fn into_row(self) -> Reading
        ensures { result ≡ self.row }
    {
        self.row
    }
}
