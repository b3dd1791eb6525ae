// Why a program stops before it has shown anything: each prints one line.
ghost use Rattle.std.specs.Prelude.{◌≡◌, IfOk, is_ok, if◌then◌else◌};

use faults::{Failure, Report};
use packed::LoadFault;
use script::ScriptFault;
use std::alloc::AllocError;
use std::process::ExitCode;
use std::{fmt, io};
use text::{AtLine, TextFault};

#[derive(Clone, Copy, PartialEq, Eq, Debug)]
pub enum Program {
    Play,
    Roam,
}

// How the program is called.
impl fmt::Display for Program {
    fn fmt<W: fmt::Write>(&self, f: &mut fmt::Formatter<W>) -> fmt::Result {
        f.write_str(match self {
            Program::Play => "play DRAWING SHEET",
            Program::Roam => "roam DRAWING SHEET [none | one | table:K] < SCRIPT",
        })
    }
}

#[derive(Drop)]
pub enum Stop {
    Usage(Program),
    CannotRead(String, io::Error),
    Drawing(Report),
    SheetLine(AtLine<TextFault>),
    ScriptLine(AtLine<ScriptFault>),
    Sheet(Report),
    Open(Report),
    NoMemory,
    Output(io::Error),
}

impl From<AllocError> for Stop {
    fn from(_e: AllocError) -> Stop {
        Stop::NoMemory
    }
}

impl From<io::Error> for Stop {
    fn from(e: io::Error) -> Stop {
        Stop::Output(e)
    }
}

impl From<LoadFault> for Stop {
    fn from(fault: LoadFault) -> Stop {
        Stop::Drawing(fault.into())
    }
}

impl From<AtLine<TextFault>> for Stop {
    fn from(fault: AtLine<TextFault>) -> Stop {
        Stop::SheetLine(fault)
    }
}

impl From<AtLine<ScriptFault>> for Stop {
    fn from(fault: AtLine<ScriptFault>) -> Stop {
        Stop::ScriptLine(fault)
    }
}

impl<F> From<Failure<F>> for Stop
where
    Stop: From<F>,
{
    fn from(failure: Failure<F>) -> Stop {
        match failure {
            Failure::Fault(fault) => Stop::from(fault),
            Failure::NoMemory => Stop::NoMemory,
        }
    }
}

// A file that is not there or cannot be read, or is too large for the memory.
pub fn unreadable(path: String, e: io::Error) -> Stop {
    match e.kind() {
        io::ErrorKind::OutOfMemory => Stop::NoMemory,
        _ => Stop::CannotRead(path, e),
    }
}

impl fmt::Display for Stop {
    fn fmt<W: fmt::Write>(&self, f: &mut fmt::Formatter<W>) -> fmt::Result {
        match self {
            Stop::Usage(program) => write!(f, "usage: {program}"),
            Stop::CannotRead(path, e) => write!(f, "cannot read {path}: {e}"),
            Stop::Drawing(report) => write!(f, "drawing {report}"),
            Stop::SheetLine(at) => write!(f, "sheet {at}"),
            Stop::ScriptLine(at) => write!(f, "script {at}"),
            Stop::Sheet(report) => write!(f, "sheet {report}"),
            Stop::Open(report) => write!(f, "open {report}"),
            Stop::NoMemory => write!(f, "out of memory"),
            Stop::Output(e) => write!(f, "cannot write: {e}"),
        }
    }
}

// The end of a program: what stopped it, if anything did, prints its one line and gives status 1.
pub fn ended(rt: &HostRuntime, outcome: Result<(), Stop>) -> io::Result<ExitCode>
    ensures { IfOk result (λ code. code.status ≡ (if is_ok outcome then 0 else 1)) }
{
    match outcome {
        Ok(()) => Ok(ExitCode::SUCCESS),
        Err(stop) => {
            println!(rt; "{stop}")?;
            Ok(ExitCode::FAILURE)
        }
    }
}
