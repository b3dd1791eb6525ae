// Worked examples of the check, as theorems.
#![tactic(auto)]

mod examples;

pub use examples::{
    built_in_is_accepted, inverter_on_itself_is_refused, inverter_through_delay_suits,
};
