// The standing cells of one cycle.
ghost use Rattle.std.specs.Prelude.{◌≡◌, ◌≤◌, length};

use values::Cell;

mod cells;

// A cell for each column: plain memory, since a reading is copied.
#[derive(Clone, Copy)]
pub struct Reading {
    cells: [Cell; 8],
    len: usize,
    ghost whole: { length cells ≡ 8 },
    ghost few: { len ≤ 8 },
}
