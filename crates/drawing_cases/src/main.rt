// Checks the drawings of a table against the plant library, and says what the check makes of each.
#![tactic(auto)]

use draft::read_draft;
use drawing::check;
use faults::{Failure, Report};
use hexadecimal::bytes_of;
use plant::Plant;
use std::alloc::AllocError;
use std::{fs, io};

fn show_failure<F: Drop>(rt: &HostRuntime, label: &str, failure: Failure<F>) -> io::Result<()>
where
    Report: From<F>,
{
    match failure {
        Failure::Fault(fault) => {
            let report = Report::from(fault);
            println!(rt; "{label} {report}")
        }
        Failure::NoMemory => Err(io::Error::from(AllocError)),
    }
}

fn show_order(rt: &HostRuntime, label: &str, order: &[usize]) -> io::Result<()> {
    print!(rt; "{label} order")?;
    for v in order {
        print!(rt; " {v}")?;
    }
    println!(rt; "")
}

fn show_case(rt: &HostRuntime, label: &str, file: &[u8]) -> io::Result<()> {
    let draft = match read_draft(rt.alloc(), file) {
        Ok(draft) => draft,
        Err(error) => return show_failure(rt, label, error),
    };
    match check(rt.alloc(), &Plant, draft) {
        Ok(drawing) => show_order(rt, label, drawing.order()),
        Err(rejected) => show_failure(rt, label, rejected.error),
    }
}

fn show_line(rt: &HostRuntime, line: &str) -> io::Result<()> {
    match line.split_once(' ') {
        Some((label, hex)) => match bytes_of(rt.alloc(), hex.as_bytes())? {
            Some(file) => show_case(rt, label, &file),
            None => println!(rt; "{label} is not hexadecimal"),
        },
        None => println!(rt; "no case: {line}"),
    }
}

fn main(rt: HostRuntime) -> io::Result<()> {
    let table = fs::read_to_string(&rt, "cases.txt")?;
    for line in table.lines() {
        show_line(&rt, line)?;
    }
    Ok(())
}
