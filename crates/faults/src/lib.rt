// What is told of a refusal, and the refusals that users and programmers meet.
#![tactic(auto)]

mod failure;
mod fault;
mod report;

pub use failure::Failure;
pub use fault::{Fault, Place};
pub use report::Report;
