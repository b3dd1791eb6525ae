// A store that takes nothing.
ghost use Rattle.keyframes.specs.Stores.{no_frames};

use crate::store::KeyframeStore;
use values::Row;

#[derive(Drop)]
pub struct NoStore;

impl KeyframeStore for NoStore {
    ghost means = { λ _. no_frames };

    ghost retakes = { λ _ _ h. h };

    fn takes(&self, _cycle: u32) -> bool {
        false
    }

    fn put(&mut self, _cycle: u32, _row: &Row) -> bool {
        false
    }

    fn find(&self, _cycle: u32) -> Option<u32> {
        None
    }

    fn fetch(&self, _cycle: u32) -> Option<Row> {
        None
    }

    fn cut(&mut self, _cycle: u32) {}

    fn empty(&mut self) {}
}
