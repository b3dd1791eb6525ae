// Packed files: a draft is written to one, and a drawing is loaded from one.
#![tactic(auto)]

mod bitfield;
mod emit;
mod laws;
mod load_fault;
mod loading;
mod pack;

pub use laws::demonstration_file_stands;
pub use load_fault::{LoadError, LoadFault};
pub use loading::load;
pub use pack::write_draft;
