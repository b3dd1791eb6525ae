// Why no drawing is loaded: the lower layer's fault, whole.
use draft::ReadFault;
use drawing::CheckFault;
use faults::Failure;

#[derive(Clone, Copy, PartialEq, Eq, Debug)]
pub enum LoadFault {
    Read(ReadFault),
    Check(CheckFault),
}

pub type LoadError = Failure<LoadFault>;
