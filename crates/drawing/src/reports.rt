// What is told of the faults of drafts.
ghost use Rattle.std.specs.Prelude.{◌≡◌};
ghost use Rattle.drawing.specs.Faults.{check_report};

use crate::fault::CheckFault;
use faults::Report;

// Layer 2: its number and the shape of its places, said once.
fn by_draughtsman(number: u8, block: usize, part: usize) -> Report
    ensures { result ≡ record { number = number; layer = 2; place = (block, part) } }
{
    Report {
        number,
        layer: 2,
        place: (block, part),
    }
}

impl From<CheckFault> for Report {
    ghost from_gives = { λ fault report. report ≡ check_report fault };

    fn from(fault: CheckFault) -> Report {
        match fault {
            CheckFault::UnknownKind(b) => by_draughtsman(11, b, 0),
            CheckFault::InputCount(b) => by_draughtsman(12, b, 0),
            CheckFault::ParameterCount(b) => by_draughtsman(13, b, 0),
            CheckFault::ParameterType(b, p) => by_draughtsman(13, b, p),
            CheckFault::Unlawful(b) => by_draughtsman(14, b, 0),
            CheckFault::SourceAbsent(b, i) => by_draughtsman(15, b, i),
            CheckFault::SourceType(b, i) => by_draughtsman(16, b, i),
            CheckFault::Loop(b) => by_draughtsman(17, b, 0),
        }
    }
}
