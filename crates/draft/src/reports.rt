// What is told of the faults of files.
ghost use Rattle.std.specs.Prelude.{◌≡◌};
ghost use Rattle.draft.specs.Faults.{read_report};

use crate::fault::ReadFault;
use faults::Report;

// Layer 1: its number and the shape of its places, said once.
fn by_file(number: u8, bit: usize) -> Report
    ensures { result ≡ record { number = number; layer = 1; place = (bit, 0) } }
{
    Report {
        number,
        layer: 1,
        place: (bit, 0),
    }
}

impl From<ReadFault> for Report {
    ghost from_gives = { λ fault report. report ≡ read_report fault };

    fn from(fault: ReadFault) -> Report {
        match fault {
            ReadFault::CutShort(bit) => by_file(1, bit),
            ReadFault::Edition(bit) => by_file(2, bit),
            ReadFault::Count(bit) => by_file(3, bit),
            ReadFault::NoType(bit) => by_file(4, bit),
            ReadFault::ZeroBit(bit) => by_file(5, bit),
            ReadFault::NotFinite(bit) => by_file(6, bit),
            ReadFault::NameByte(bit) => by_file(7, bit),
            ReadFault::LeftOver(bit) => by_file(8, bit),
        }
    }
}
