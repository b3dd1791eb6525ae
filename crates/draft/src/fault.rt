// Why a file is not read.
ghost use Rattle.std.specs.Prelude.{◌≡◌};
ghost use Rattle.faults.specs.declared.failure.Failure.TheVariants.{Fault};

use faults::Failure;

// Why a file is no draft, with the first bit of the field that shows it.
#[derive(Clone, Copy, PartialEq, Eq, Debug)]
pub enum ReadFault {
    CutShort(usize),
    Edition(usize),
    Count(usize),
    NoType(usize),
    ZeroBit(usize),
    NotFinite(usize),
    NameByte(usize),
    LeftOver(usize),
}

// Why no draft was read.
pub type ReadError = Failure<ReadFault>;

impl From<ReadFault> for Failure<ReadFault> {
    ghost from_gives = { λ e r. r ≡ Fault e };

    fn from(fault: ReadFault) -> ReadError {
        Failure::Fault(fault)
    }
}
