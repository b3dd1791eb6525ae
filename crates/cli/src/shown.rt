// A block as the programs show it.
use std::fmt;
use std::str::from_utf8;
use values::Value;

// Its number, its name and what it shows.
#[derive(Clone, Copy)]
pub struct Shown<'a> {
    pub number: usize,
    pub name: &'a [u8],
    pub value: Value,
}

impl fmt::Display for Shown<'_> {
    fn fmt<W: fmt::Write>(&self, f: &mut fmt::Formatter<W>) -> fmt::Result {
        let Shown {
            number,
            name,
            value,
        } = *self;
        let name = from_utf8(name).unwrap_or("");
        write!(f, "{number} {name}: {value}")
    }
}
