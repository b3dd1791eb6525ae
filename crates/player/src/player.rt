// A playhead over the cycles of a sheet: the states there, and what each block shows.
ghost use Rattle.std.specs.Prelude.{◌≡◌, ◌<◌};

use blocks::BlockLibrary;
use drawing::Drawing;
use keyframes::KeyframeStore;
use values::{Outputs, States};
use walk::Machine;

#[derive(Drop)]
pub struct Player<L: BlockLibrary, S: KeyframeStore> {
    pub(crate) library: L,
    pub(crate) store: S,
    pub(crate) drawing: Drawing,
    // the rows of the sheet that it was opened with, 0 where it is not opened
    pub(crate) rows: u32,
    pub(crate) at: u32,
    pub(crate) states: States,
    pub(crate) shown: Outputs,
    ghost short: { at < 4096 },
    ghost inside: { (0 < rows → at < rows) },
}

impl<L: BlockLibrary, S: KeyframeStore> Player<L, S> {
    pub(crate) fn machine(&self) -> Machine<'_, L>
        ensures library { result.library.now ≡ self.now.library }
        ensures drawing { result.drawing.now ≡ self.now.drawing }
    {
        Machine {
            library: &self.library,
            drawing: &self.drawing,
        }
    }
}
