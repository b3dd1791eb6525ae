// The cells of a sheet, from bytes.
use std::alloc::{AllocError, Global};
use values::{Cell, ValueType};

fn cell_of(value_type: ValueType, word: u32) -> Cell {
    match value_type {
        ValueType::Binary => Cell::Binary(word % 2 == 1),
        ValueType::Whole => Cell::Whole(((word % 0x1_0000) as u16).cast_signed()),
        ValueType::Real => Cell::Real(word),
    }
}

// Row by row, four bytes to a cell, the lowest first.
pub(crate) fn cells_of(
    heap: Global,
    types: &[ValueType],
    bytes: &[u8],
) -> Result<Vec<Cell>, AllocError> {
    let mut cells = Vec::new(heap);
    if types.len() == 0 {
        return Ok(cells);
    }
    let (words, _) = bytes.as_chunks::<4>();
    for (word, value_type) in words.iter().zip(types.iter().cycle()) {
        cells.push(cell_of(*value_type, u32::from_le_bytes(*word)))?;
    }
    Ok(cells)
}
