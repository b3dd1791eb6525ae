// The program's text: values and sheets are read from it.
#![tactic(auto)]

mod at_line;
mod literal;
mod sheet_file;

pub use at_line::AtLine;
pub use literal::{literal_for, loose_literal};
pub use sheet_file::{SheetFile, SheetTextError, TextFault, read_sheet};
