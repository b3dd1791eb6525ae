// Runs two tables of files and prints what becomes of each: good and damaged ones through load, random ones through the
// reader. A table has a line for each file: a label, and the file's bytes in hexadecimal.
#![tactic(auto)]

mod rewriting;

use draft::read_draft;
use faults::{Failure, Report};
use hexadecimal::bytes_of;
use packed::load;
use plant::Plant;
use rewriting::rewritten;
use std::alloc::AllocError;
use std::{fs, io};

// What became of a file: the word for a good one, or the refusal.
fn print_outcome<T: Drop, F: Drop>(
    rt: &HostRuntime,
    good: &str,
    outcome: Result<T, Failure<F>>,
) -> io::Result<()>
where
    Report: From<F>,
{
    match outcome {
        Ok(_) => print!(rt; "{good}"),
        Err(Failure::Fault(fault)) => {
            let report = Report::from(fault);
            print!(rt; "{report}")
        }
        Err(Failure::NoMemory) => Err(AllocError.into()),
    }
}

// One line of a table: what a test makes of its file, and whether the file is written back the same.
fn print_case<F: Fn(&[u8]) -> io::Result<()>>(
    rt: &HostRuntime,
    line: &str,
    test: &F,
) -> io::Result<()>
    requires { F.IsAlwaysCallable test.now }
{
    let (label, digits) = line.split_once(' ').unwrap_or((line, ""));
    let Some(file) = bytes_of(rt.alloc(), digits.as_bytes())? else {
        return println!(rt; "{label} is not hexadecimal");
    };
    print!(rt; "{label} ")?;
    test(&file)?;
    match rewritten(rt.alloc(), &file)? {
        Some(true) => println!(rt; " same"),
        Some(false) => println!(rt; " other"),
        None => println!(rt; ""),
    }
}

fn main(rt: HostRuntime) -> io::Result<()> {
    let cases = fs::read_to_string(&rt, "cases.txt")?;
    let loads = |file: &[u8]| print_outcome(&rt, "ok", load(rt.alloc(), &Plant, file));
    for line in cases.lines() {
        print_case(&rt, line, &loads)?;
    }
    let random = fs::read_to_string(&rt, "random.txt")?;
    let reads = |file: &[u8]| print_outcome(&rt, "reads", read_draft(rt.alloc(), file));
    for line in random.lines() {
        print_case(&rt, line, &reads)?;
    }
    Ok(())
}
