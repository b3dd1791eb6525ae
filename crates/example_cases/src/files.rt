// Packed files: read and written back, loaded, refused.
use draft::read_draft;
use faults::{Failure, Report};
use packed::{load, write_draft};
use plant::Plant;
use std::alloc::AllocError;
use std::io;

pub const DEMONSTRATION: [u8; 15] = [
    0x01, 0x10, 0x40, 0x80, 0x08, 0x91, 0x81, 0x80, 0x01, 0x40, 0x44, 0x2D, 0x00, 0x80, 0x00,
];

const INVERTER: [u8; 6] = [0x01, 0x00, 0x20, 0x1C, 0x80, 0x80];

const DELAYED_INVERTER: [u8; 10] = [0x01, 0x00, 0x40, 0x1C, 0x80, 0x81, 0x04, 0x90, 0x80, 0x40];

fn show_failure<F: Drop>(rt: &HostRuntime, label: &str, failure: Failure<F>) -> io::Result<()>
where
    Report: From<F>,
{
    match failure {
        Failure::Fault(fault) => {
            let report = Report::from(fault);
            println!(rt; "{label}: {report}")
        }
        Failure::NoMemory => Err(io::Error::from(AllocError)),
    }
}

// What is written of the draft of a file.
fn show_written(rt: &HostRuntime, label: &str, file: &[u8]) -> io::Result<()> {
    let draft = match read_draft(rt.alloc(), file) {
        Ok(draft) => draft,
        Err(error) => return show_failure(rt, label, error),
    };
    let mut memory = [0u8; 1989];
    match write_draft(&draft, &mut memory) {
        Ok(count) => {
            print!(rt; "{label}:")?;
            for byte in memory.iter().take(count) {
                print!(rt; " {byte:02X}")?;
            }
            println!(rt; "")
        }
        Err(fault) => show_failure(rt, label, Failure::Fault(fault)),
    }
}

fn show_loaded(rt: &HostRuntime, label: &str, file: &[u8]) -> io::Result<()> {
    match load(rt.alloc(), &Plant, file) {
        Ok(_) => println!(rt; "{label}: accepted"),
        Err(error) => show_failure(rt, label, error),
    }
}

pub fn show_files(rt: &HostRuntime) -> io::Result<()> {
    show_written(rt, "demonstration", &DEMONSTRATION)?;
    show_written(rt, "empty file", &[])?;
    show_loaded(rt, "empty file loaded", &[])?;
    show_loaded(rt, "NOT fed by itself", &INVERTER)?;
    show_loaded(rt, "NOT through DELB", &DELAYED_INVERTER)
}
