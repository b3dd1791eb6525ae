// What stands: the sheet's sizes and its readings.
ghost use Rattle.std.specs.Prelude.{◌≡◌, ◌<◌, map};
ghost use Rattle.values.specs.Packed.{value_of};
ghost use Rattle.sheet.specs.Held.{types_of, cells_of};
ghost use Rattle.sheet.specs.Page.{page};
ghost use Rattle.sheet.specs.Rows.{rows_of};
ghost use Rattle.sheet.specs.Laws.{FitRow};

use super::Sheet;
use crate::columns::Columns;
use crate::reading::Reading;

impl Sheet<'_> {
    pub fn rows(&self) -> u32
        ensures { result ≡ (page self.now).rows }
    {
        self.rows
    }

    pub fn columns(&self) -> Columns
        ensures { types_of result ≡ (page self.now).columns }
    {
        self.columns
    }

    // The standing cells of a cycle, and none past the last row.
    pub fn row(&self, cycle: u32) -> Reading
        ensures values { map value_of (cells_of result) ≡ rows_of (page self.now) cycle }
        ensures fits { cycle < (page self.now).rows → FitRow (page self.now).columns (map value_of (cells_of result)) }
    {
        if cycle >= self.rows {
            return Reading::new(&[]);
        }
        let width = self.columns.len();
        let start = cycle as usize * width;
        self.writes
            .over_row(cycle, &self.cells[start..start + width])
    }
}
