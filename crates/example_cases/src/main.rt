// Runs the worked examples on the engine and prints their figures.
#![tactic(auto)]

mod files;
mod kinds;
mod playing;

use crate::files::show_files;
use crate::kinds::show_kinds;
use crate::playing::show_runs;
use std::io;

fn main(rt: HostRuntime) -> io::Result<()> {
    show_kinds(&rt)?;
    show_files(&rt)?;
    show_runs(&rt)
}
