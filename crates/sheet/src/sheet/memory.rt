// The test of memory, and the sheets that are made of it.
ghost use Rattle.std.specs.Prelude.{◌≡◌, ◌<◌, ◌≤◌, length};
ghost use Rattle.std.specs.Result.{result_err};
ghost use Rattle.sheet.specs.Calls.{Answers};
ghost use Rattle.sheet.specs.Held.{types_of};
ghost use Rattle.sheet.specs.Page.{page};
ghost use Rattle.sheet.specs.Memory.{misfit, FirstMisfit, Tested, Makes};

use super::Sheet;
use crate::columns::Columns;
use crate::list::WriteList;
use faults::{Fault, Place};
use values::{Cell, Value, ValueType};

// Whether a cell may stand in a column of a type.
fn fits(wanted: ValueType, place: Place, cell: Cell) -> Result<(), Fault>
    ensures { Answers (misfit wanted place cell) tt result }
{
    if Value::from(cell).value_type() != wanted {
        Err(Fault::WrongType(place))
    } else if !cell.is_finite() {
        Err(Fault::NotFinite(place))
    } else {
        Ok(())
    }
}

// Whether each cell, row by row, may stand in its column.
fn all_fit(columns: &Columns, cells: &[Cell]) -> Result<(), Fault>
    requires wide { 0 < length cells.now → 0 < length (types_of columns.now) }
    requires few { length cells.now ≤ 32768 }
    ensures { FirstMisfit (types_of columns.now) cells.now (result_err result) }
{
    let width = columns.len();
    // by its place, a cell's cycle and column are told
    for (i, cell) in cells.iter().enumerate() {
        let (cycle, column) = ((i / width) as u32, (i % width) as u32);
        fits(columns.type_at(column), Place { cycle, column }, *cell)?;
    }
    Ok(())
}

impl Sheet<'_> {
    // Whether memory makes a sheet of these columns and rows.
    pub fn test(columns: Columns, rows: u32, cells: &[Cell]) -> Result<(), Fault>
        ensures { Tested (types_of columns) rows cells.now result }
    {
        if rows == 0 || rows > 4096 || cells.len() != rows as usize * columns.len() {
            return Err(Fault::SheetSize);
        }
        all_fit(&columns, cells)
    }
}

impl<'a> Sheet<'a> {
    // A sheet over memory that passes the test, and else one of no rows and no columns.
    pub fn new(columns: Columns, rows: u32, cells: &'a [Cell]) -> Sheet<'a>
        ensures { Makes (types_of columns) rows cells.now (page result) }
    {
        let none: &[Cell] = &[];
        let (columns, rows, cells) = match Sheet::test(columns, rows, cells) {
            Ok(()) => (columns, rows, cells),
            Err(_) => (Columns::none(), 0, none),
        };
        Sheet {
            cells,
            rows,
            columns,
            writes: WriteList::new(),
            trial: None,
        }
    }
}
