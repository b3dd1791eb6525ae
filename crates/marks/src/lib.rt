// Marks: cycles by name.
#![tactic(auto)]

mod table;

pub use table::MarkTable;
