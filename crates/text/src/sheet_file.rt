// The text file of a sheet: a line of column types, and then a line for each row.
use crate::at_line::AtLine;
use crate::literal::literal_for;
use faults::Failure;
use std::alloc::Global;
use std::fmt;
use values::{Cell, Value, ValueType};

// What a file holds; nothing says that it can be made a sheet.
#[derive(Drop)]
pub struct SheetFile {
    pub types: Vec<ValueType>,
    pub cells: Vec<Cell>,
    pub rows: usize,
}

#[derive(Clone, Copy, PartialEq, Eq, Debug)]
pub enum TextFault {
    UnknownType,
    CellCount { wanted: usize, given: usize },
    NoValue { column: usize },
}

impl fmt::Display for TextFault {
    fn fmt<W: fmt::Write>(&self, f: &mut fmt::Formatter<W>) -> fmt::Result {
        match *self {
            TextFault::UnknownType => write!(f, "a column type is none of binary, whole and real"),
            TextFault::CellCount { wanted, given } => {
                write!(f, "{given} cells where there are {wanted} columns")
            }
            TextFault::NoValue { column } => write!(f, "the cell of column {column} is no value"),
        }
    }
}

// Why a file is not read.
pub type SheetTextError = Failure<AtLine<TextFault>>;

fn type_named(name: &str) -> Option<ValueType> {
    match name {
        "binary" => Some(ValueType::Binary),
        "whole" => Some(ValueType::Whole),
        "real" => Some(ValueType::Real),
        _ => None,
    }
}

// A line without a carriage return at its end and without spaces around it.
fn bare(line: &str) -> &str {
    line.strip_suffix('\r').unwrap_or(line).trim_matches(' ')
}

// The types of the columns; an empty line has none.
fn read_types(heap: Global, line: &str) -> Result<Vec<ValueType>, SheetTextError> {
    let mut types = Vec::new(heap);
    if line.is_empty() {
        return Ok(types);
    }
    for name in line.split(',') {
        let named = type_named(name.trim_matches(' '));
        types.push(named.ok_or(AtLine {
            line: 1,
            fault: TextFault::UnknownType,
        })?)?;
    }
    Ok(types)
}

// How many cells a line has; an empty line has none where there are no columns.
fn count_cells(line: &str, types: &[ValueType]) -> usize {
    if line.is_empty() && types.is_empty() {
        return 0;
    }
    line.split(',').count()
}

// Adds the cells of a row.
fn read_row(
    cells: &mut Vec<Cell>,
    types: &[ValueType],
    line: usize,
    text: &str,
) -> Result<(), SheetTextError> {
    let given = count_cells(text, types);
    if given != types.len() {
        let fault = TextFault::CellCount {
            wanted: types.len(),
            given,
        };
        return Err(AtLine { line, fault }.into());
    }
    for (column, (t, cell)) in types.iter().zip(text.split(',')).enumerate() {
        let fault = TextFault::NoValue { column };
        let value = literal_for(cell.trim_matches(' '), *t).ok_or(AtLine { line, fault })?;
        cells.push(Cell::from(value))?;
    }
    Ok(())
}

// Reads a whole file. A file with no line has no columns and no rows.
pub fn read_sheet(heap: Global, text: &str) -> Result<SheetFile, SheetTextError> {
    let mut cells = Vec::new(heap);
    let mut rows = 0usize;
    let mut lines = text.lines();
    let types = read_types(heap, bare(lines.next().unwrap_or("")))?;
    for (i, line) in lines.enumerate() {
        rows = i.saturating_add(1);
        read_row(&mut cells, &types, rows.saturating_add(1), bare(line))?;
    }
    Ok(SheetFile { types, cells, rows })
}
