// What a call of a run answers.
use faults::{Fault, Report};
use std::fmt;
use values::Value;

#[derive(Clone, Copy)]
pub enum Answer {
    // the cycles worked
    Worked(u32),
    // the number that a slip holds
    Slip(u32),
    Value(Value),
    Count(u32),
    Refused(Fault),
    // the hand has no such slip, and no call was made
    NoSlip,
}

impl fmt::Display for Answer {
    fn fmt<W: fmt::Write>(&self, f: &mut fmt::Formatter<W>) -> fmt::Result {
        match *self {
            Answer::Worked(n) => write!(f, "worked {n}"),
            Answer::Slip(n) => write!(f, "slip {n}"),
            Answer::Value(value) => write!(f, "{value}"),
            Answer::Count(n) => write!(f, "count {n}"),
            Answer::Refused(fault) => {
                let report = Report::from(fault);
                write!(f, "{report}")
            }
            Answer::NoSlip => write!(f, "no slip in hand"),
        }
    }
}
