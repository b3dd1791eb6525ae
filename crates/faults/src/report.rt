use std::fmt;

// What is told of any refusal: its number, the layer that refused, and the place, two numbers.
#[derive(Clone, Copy, PartialEq, Eq, Debug)]
pub struct Report {
    pub number: u8,
    pub layer: u8,
    pub place: (usize, usize),
}

impl fmt::Display for Report {
    fn fmt<W: fmt::Write>(&self, f: &mut fmt::Formatter<W>) -> fmt::Result {
        let Report {
            number,
            layer,
            place: (a, b),
        } = *self;
        write!(f, "refused {number} layer {layer} at {a} {b}")
    }
}
