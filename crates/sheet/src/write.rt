// What stands in place of a first cell, which keeps a real as its pattern.
use values::Cell;

#[derive(Clone, Copy, PartialEq, Eq, Debug, Default)]
pub struct Write {
    pub cycle: u32,
    pub column: u32,
    pub cell: Cell,
}

// A write in the list, and the place of the write before it in the same cycle.
#[derive(Clone, Copy, Default)]
pub(crate) struct Standing {
    pub(crate) write: Write,
    pub(crate) previous: Option<u16>,
}
