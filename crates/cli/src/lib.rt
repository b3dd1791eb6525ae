// What the command-line programs share: the files that they are given, why they stop, and a block as they show it.
#![tactic(auto)]

mod inputs;
mod shown;
mod stop;

pub use inputs::{Inputs, read_inputs};
pub use shown::Shown;
pub use stop::{Program, Stop, ended, unreadable};
