// Why something was not made: a fault in what it was to be made of, or want of memory.
ghost use Rattle.std.specs.Prelude.{◌≡◌};
ghost use Rattle.faults.specs.Carried.{Carries};
ghost use Rattle.faults.specs.declared.failure.Failure.TheVariants.{NoMemory};

use std::alloc::{AllocError, AllocFailed};

#[derive(Clone, Copy, PartialEq, Eq, Debug)]
pub enum Failure<F> {
    Fault(F),
    NoMemory,
}

impl<F: Drop> Failure<F> {
    // The same failure for a layer above, whose fault carries this one's whole.
    pub fn carried<G: From<F>>(self) -> Failure<G>
        ensures { Carries G.from_gives self result }
    {
        match self {
            Failure::Fault(fault) => Failure::Fault(G::from(fault)),
            Failure::NoMemory => Failure::NoMemory,
        }
    }
}

impl<F> From<AllocError> for Failure<F> {
    ghost from_gives = { λ _ r. r ≡ NoMemory };

    fn from(_e: AllocError) -> Failure<F> {
        Failure::NoMemory
    }
}

impl<F, T: Drop> From<AllocFailed<T>> for Failure<F> {
    ghost from_gives = { λ _ r. r ≡ NoMemory };

    fn from(_e: AllocFailed<T>) -> Failure<F> {
        Failure::NoMemory
    }
}
