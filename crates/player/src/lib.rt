// A player of block diagrams: what a drawing shows at a cycle of a sheet, with keyframes below.
#![tactic(auto)]

mod access;
mod answer;
mod calls;
mod changes;
mod making;
mod moves;
mod opening;
mod player;
mod serving;
mod trials;
mod unopened;

pub use answer::Answer;
pub use player::Player;
pub use unopened::Unopened;
