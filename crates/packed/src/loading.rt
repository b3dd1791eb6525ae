// Loads a drawing: its file is read, and the draft is checked.
ghost use Rattle.std.specs.Prelude.{◌≡◌, MatchResult};
ghost use Rattle.packed.specs.declared.load_fault.LoadFault.TheVariants.{Read, Check};
ghost use Rattle.packed.specs.Load.{relayed, load_report, from_read, from_check, Loads, Unloaded};

use crate::load_fault::{LoadError, LoadFault};
use blocks::BlockLibrary;
use draft::{ReadError, ReadFault, read_draft};
use drawing::{CheckError, CheckFault, Drawing, check};
use faults::Report;
use std::alloc::Global;

impl From<ReadFault> for LoadFault {
    ghost from_gives = { λ e r. r ≡ Read e };

    fn from(fault: ReadFault) -> LoadFault {
        LoadFault::Read(fault)
    }
}

impl From<CheckFault> for LoadFault {
    ghost from_gives = { λ e r. r ≡ Check e };

    fn from(fault: CheckFault) -> LoadFault {
        LoadFault::Check(fault)
    }
}

// Layer 4 tells the lower layer's number and place.
fn relay(report: Report) -> Report
    ensures { result ≡ relayed report }
{
    Report {
        number: report.number,
        layer: 4,
        place: report.place,
    }
}

impl From<LoadFault> for Report {
    ghost from_gives = { λ fault report. report ≡ load_report fault };

    fn from(fault: LoadFault) -> Report {
        match fault {
            LoadFault::Read(fault) => relay(Report::from(fault)),
            LoadFault::Check(fault) => relay(Report::from(fault)),
        }
    }
}

// A lower layer's failure, told by this one: a function for each, since load's own clause allows want of memory at any
// file and so cannot say that a fault stays one.
fn unread(error: ReadError) -> LoadError
    ensures { result ≡ from_read error }
{
    error.carried()
}

fn unaccepted(refusal: CheckError) -> LoadError
    ensures { result ≡ from_check refusal }
{
    refusal.carried()
}

// The drawing of a file, or the first fault of the file or of its draft.
pub fn load<L: BlockLibrary>(heap: Global, library: &L, file: &[u8]) -> Result<Drawing, LoadError>
    ensures { MatchResult result (Loads (L.meaning library.now) file.now) (Unloaded (L.meaning library.now) file.now) }
{
    let draft = read_draft(heap, file).map_err(unread)?;
    match check(heap, library, draft) {
        Ok(drawing) => Ok(drawing),
        Err(rejected) => Err(unaccepted(rejected.error)),
    }
}
