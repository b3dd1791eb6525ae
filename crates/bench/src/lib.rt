// Whole pieces of the engine's work behind numbers and bytes, for a program outside to time and to compare. Each
// answers a checksum of what the engine gave, or `REFUSED` where the engine refuses what it is given.
#![tactic(auto)]

mod checksum;
mod dice;
mod exports;
mod files;
mod readings;
mod tasks;

pub use exports::{
    REFUSED, lundzavar_jump, lundzavar_jumps, lundzavar_load, lundzavar_read, lundzavar_rework,
    lundzavar_standing, lundzavar_steps, lundzavar_write,
};
