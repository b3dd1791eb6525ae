// Sheets of typed cells in lent memory: the test of the memory, the writes that stand over the cells,
// trials with their slips, and the standing readings of a cycle.
#![tactic(auto)]

mod columns;
mod list;
mod overlay;
mod reading;
mod sheet;
mod slip;
mod write;

pub use columns::Columns;
pub use reading::Reading;
pub use sheet::Sheet;
pub use slip::{Returned, Slip};
pub use write::Write;
