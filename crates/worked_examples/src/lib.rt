// The worked examples as theorems.
#![tactic(auto)]

mod worked;

pub use worked::worked_examples_stand;
