// Stores of keyframes: rows of states that are kept for some cycles, so that a move can start from one.
#![tactic(auto)]

mod chain;
mod lent;
mod none;
mod one;
mod store;
mod table;

pub use chain::{reach, reach_with};
pub use lent::Lent;
pub use none::NoStore;
pub use one::OneStore;
pub use store::KeyframeStore;
pub use table::TableStore;
