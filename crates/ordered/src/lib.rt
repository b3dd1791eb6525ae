// One table for every key: entries in lent memory, in the order of their keys.
#![tactic(auto)]

mod entry;
mod full;
mod insert;
mod key;
mod keys;
mod name;
mod table;

pub use entry::Entry;
pub use full::Full;
pub use key::Key;
pub use name::Name;
pub use table::OrderedTable;
