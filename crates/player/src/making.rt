// A player is made unopened.
ghost use Rattle.std.specs.Prelude.{IfOk};
ghost use Rattle.player.specs.Opens.{New};

use crate::player::Player;
use blocks::BlockLibrary;
use drawing::Drawing;
use keyframes::KeyframeStore;
use std::alloc::{AllocError, Global};
use values::{Outputs, States};

impl<L: BlockLibrary + Drop, S: KeyframeStore + Drop> Player<L, S> {
    // A player with a library and a store, and the built-in drawing until it is opened on another.
    pub fn new(heap: Global, library: L, store: S) -> Result<Player<L, S>, AllocError>
        ensures { IfOk result (New library store) }
    {
        let drawing = Drawing::built_in(heap)?;
        Ok(Player {
            library,
            store,
            drawing,
            rows: 0,
            at: 0,
            states: States::new(),
            shown: Outputs::new(),
        })
    }
}
