// Numbers that look thrown, the same for the same seed.
ghost use Rattle.std.specs.Prelude.{◌<◌};

use values::{Value, ValueType};

#[derive(Drop)]
pub(crate) struct Dice {
    state: u64,
}

impl Dice {
    pub(crate) fn new(seed: u64) -> Dice {
        Dice { state: seed }
    }

    fn roll(&mut self) -> u64 {
        self.state = self
            .state
            .wrapping_mul(0x5851_f42d_4c95_7f2d)
            .wrapping_add(0x1405_7b7e_f767_814f);
        self.state >> 33
    }

    // A number below `count`, 0 where there is none.
    pub(crate) fn below(&mut self, count: u32) -> u32
        ensures { 0 < count → result < count }
    {
        if count == 0 {
            return 0;
        }
        (self.roll() % u64::from(count)) as u32
    }

    // A finite value of the type.
    pub(crate) fn value(&mut self, value_type: ValueType) -> Value {
        match value_type {
            ValueType::Binary => Value::Binary(self.below(2) == 1),
            ValueType::Whole => Value::Whole(self.below(2000) as i16),
            ValueType::Real => Value::Real(f32::from(self.below(2000) as u16) / 16.0),
        }
    }
}
