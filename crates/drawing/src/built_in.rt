// The drawing that is built in.
ghost use Rattle.std.specs.Prelude.{IfOk};
ghost use Rattle.drawing.specs.BuiltIn.{BuiltIn};

use crate::drawing::Drawing;
use blocks::{Signature, Types};
use draft::Draft;
use std::alloc::{AllocError, Global};
use values::ValueType;

impl Drawing {
    // The built-in draft as checked: a delay of binary values that is fed by itself. It needs no library.
    pub fn built_in(heap: Global) -> Result<Drawing, AllocError>
        ensures { IfOk result BuiltIn }
    {
        let binary_delay = Signature {
            inputs: Types::One(ValueType::Binary),
            params: Types::One(ValueType::Binary),
            output: ValueType::Binary,
            delaying: true,
        };
        let draft = Draft::built_in(heap)?;
        let signatures = Vec::from_slice(heap, &[binary_delay])?;
        let order = Vec::from_slice(heap, &[0])?;
        Ok(Drawing {
            draft,
            signatures,
            order,
        })
    }
}
