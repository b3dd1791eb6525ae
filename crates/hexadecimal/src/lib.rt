// Numbers as hexadecimal digits in capitals, as the tables of the test programs have them.
#![tactic(auto)]

mod hex;

pub use hex::{bytes_of, digit};
