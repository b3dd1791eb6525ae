// What a checked drawing shows at a cycle of a sheet, worked from its first states at cycle 0.
#![tactic(auto)]

mod cycle;
mod laws;
mod machine;
mod opening;
mod walking;

pub use laws::laws_hold;
pub use machine::Machine;
