// A fault with the line of the text that has it, counted from 1.
ghost use Rattle.std.specs.Prelude.{◌≡◌};
ghost use Rattle.faults.specs.declared.failure.Failure.TheVariants.{Fault};

use faults::Failure;
use std::fmt;

#[derive(Clone, Copy, PartialEq, Eq, Debug)]
pub struct AtLine<F> {
    pub line: usize,
    pub fault: F,
}

impl<F: fmt::Display> fmt::Display for AtLine<F> {
    fn fmt<W: fmt::Write>(&self, f: &mut fmt::Formatter<W>) -> fmt::Result {
        let line = self.line;
        let fault = &self.fault;
        write!(f, "line {line}: {fault}")
    }
}

impl<F> From<AtLine<F>> for Failure<AtLine<F>> {
    ghost from_gives = { λ fault r. r ≡ Fault fault };

    fn from(fault: AtLine<F>) -> Failure<AtLine<F>> {
        Failure::Fault(fault)
    }
}
