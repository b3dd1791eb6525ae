// The program's scripts, read from text.
#![tactic(auto)]

mod script;

pub use script::{Mark, Script, ScriptError, ScriptFault, read_script};
