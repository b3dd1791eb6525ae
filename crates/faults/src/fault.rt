// Why a call on a sheet, a player or a table is refused: layer 3.
ghost use Rattle.std.specs.Prelude.{◌≡◌};
ghost use Rattle.faults.specs.Faults.{report_of};

use crate::report::Report;

// The cycle and the column that were wanted.
#[derive(Clone, Copy, PartialEq, Eq, Debug)]
pub struct Place {
    pub cycle: u32,
    pub column: u32,
}

#[derive(Clone, Copy, PartialEq, Eq, Debug)]
pub enum Fault {
    // by the user, at the cycle and the column wanted
    CycleBeyond(Place),
    ColumnBeyond(Place),
    WrongType(Place),
    NotFinite(Place),
    ListFull(Place),
    // by the user, with no place
    NothingToTakeBack,
    TrialOpen,
    NoSuchTrial,
    NoSuchMark,
    // by the programmer, with no place
    NotOpened,
    SheetSize,
    NoSuchBlock,
    OutputShort,
    MarksFull,
    LibraryDiffers,
}

impl From<Fault> for Report {
    ghost from_gives = { λ fault report. report ≡ report_of fault };

    fn from(fault: Fault) -> Report {
        match fault {
            Fault::CycleBeyond(p) => at(21, p),
            Fault::ColumnBeyond(p) => at(22, p),
            Fault::WrongType(p) => at(23, p),
            Fault::NotFinite(p) => at(24, p),
            Fault::ListFull(p) => at(25, p),
            Fault::NothingToTakeBack => nowhere(26),
            Fault::TrialOpen => nowhere(27),
            Fault::NoSuchTrial => nowhere(28),
            Fault::NoSuchMark => nowhere(29),
            Fault::NotOpened => nowhere(31),
            Fault::SheetSize => nowhere(32),
            Fault::NoSuchBlock => nowhere(33),
            Fault::OutputShort => nowhere(34),
            Fault::MarksFull => nowhere(35),
            Fault::LibraryDiffers => nowhere(36),
        }
    }
}

// Each layer has makers of its reports, which say its number and the shape of its places once.
fn at(number: u8, p: Place) -> Report
    ensures { result ≡ record { number = number; layer = 3; place = (p.cycle, p.column) } }
{
    Report {
        number,
        layer: 3,
        place: (p.cycle as usize, p.column as usize),
    }
}

fn nowhere(number: u8) -> Report
    ensures { result ≡ record { number = number; layer = 3; place = (0, 0) } }
{
    Report {
        number,
        layer: 3,
        place: (0, 0),
    }
}
