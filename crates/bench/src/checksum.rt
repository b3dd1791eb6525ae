// A checksum of values and numbers, in their order.
ghost use Rattle.std.specs.Prelude.{◌<◌};

use values::{Value, pattern};

#[derive(Clone, Copy)]
pub(crate) struct Checksum {
    so_far: u64,
}

// A number of its own for each value.
fn number_of(value: Value) -> u64 {
    match value {
        Value::Binary(b) => u64::from(b),
        Value::Whole(n) => 0x1_0000_0000 + u64::from(n.cast_unsigned()),
        Value::Real(x) => 0x2_0000_0000 + u64::from(pattern(x)),
    }
}

impl Checksum {
    pub(crate) fn new() -> Checksum {
        Checksum {
            so_far: 0xcbf2_9ce4_8422_2325,
        }
    }

    pub(crate) fn add(&mut self, number: u64) {
        self.so_far = (self.so_far ^ number).wrapping_mul(0x100_0000_01b3);
    }

    pub(crate) fn add_value(&mut self, value: Value) {
        self.add(number_of(value));
    }

    // Never 0, which stands for a refusal.
    pub(crate) fn total(self) -> u64
        ensures { 0 < result }
    {
        self.so_far.max(1)
    }
}
