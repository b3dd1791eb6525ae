// Why a drawing is refused.
ghost use Rattle.std.specs.Prelude.{◌≡◌};
ghost use Rattle.faults.specs.declared.failure.Failure.TheVariants.{Fault};

use faults::Failure;

// What is wrong with a draft: the block, and the input or the parameter.
#[derive(Clone, Copy, Debug, PartialEq, Eq)]
pub enum CheckFault {
    UnknownKind(usize),
    InputCount(usize),
    ParameterCount(usize),
    ParameterType(usize, usize),
    Unlawful(usize),
    SourceAbsent(usize, usize),
    SourceType(usize, usize),
    Loop(usize),
}

// Why no drawing was made.
pub type CheckError = Failure<CheckFault>;

impl From<CheckFault> for Failure<CheckFault> {
    ghost from_gives = { λ e r. r ≡ Fault e };

    fn from(fault: CheckFault) -> CheckError {
        Failure::Fault(fault)
    }
}
