// A hand that holds no slip, with its memory.
ghost use Rattle.std.specs.Prelude.{◌≡◌, ◌≤◌, IfOk, vec_len, vec_capacity};

use sheet::Slip;
use std::alloc::{AllocError, Global};

pub struct EmptyHand {
    pub(crate) slips: Vec<Slip>,
    ghost empty: { vec_len slips ≡ 0 },
}

impl EmptyHand {
    // A hand with room for n slips.
    pub fn with_room(heap: Global, n: usize) -> Result<EmptyHand, AllocError>
        ensures { IfOk result (λ h. n ≤ vec_capacity h.slips) }
    {
        Ok(EmptyHand {
            slips: Vec::with_capacity(heap, n)?,
        })
    }
}
