// What a player holds, for reading.
ghost use Rattle.std.specs.Prelude.{◌≡◌};

use crate::player::Player;
use blocks::BlockLibrary;
use drawing::Drawing;
use keyframes::KeyframeStore;

impl<L: BlockLibrary, S: KeyframeStore> Player<L, S> {
    // The cycle that it stands at, 0 where it is not opened.
    pub fn playhead(&self) -> u32
        ensures { result ≡ self.now.at }
    {
        self.at
    }

    // The number of rows that it was opened with, 0 where it is not opened.
    pub fn rows(&self) -> u32
        ensures { result ≡ self.now.rows }
    {
        self.rows
    }

    pub fn drawing(&self) -> &Drawing
        ensures { result.now ≡ self.now.drawing }
    {
        &self.drawing
    }

    pub fn library(&self) -> &L
        ensures { result.now ≡ self.now.library }
    {
        &self.library
    }

    pub fn store(&self) -> &S
        ensures { result.now ≡ self.now.store }
    {
        &self.store
    }
}
