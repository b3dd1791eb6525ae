// The columns of a sheet.
ghost use Rattle.std.specs.Prelude.{◌≡◌, ◌≤◌, length};

use values::ValueType;

mod types;

// The types of at most eight columns: plain memory, since columns are copied.
#[derive(Clone, Copy)]
pub struct Columns {
    types: [ValueType; 8],
    len: usize,
    ghost whole: { length types ≡ 8 },
    ghost few: { len ≤ 8 },
}
