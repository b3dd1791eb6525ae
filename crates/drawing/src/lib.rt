// The check of a drawing: from a draft to a drawing whose types agree and whose blocks have an order.
#![tactic(auto)]

mod access;
mod built_in;
mod checking;
mod drawing;
mod fault;
mod laws;
mod order;
mod reports;

pub use checking::check;
pub use drawing::{Drawing, Rejected};
pub use fault::{CheckError, CheckFault};
pub use laws::{cycle_stands, one_first, suits_or_first};
