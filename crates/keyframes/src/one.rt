// A store that always takes, and holds the last row only.
ghost use Rattle.std.specs.Prelude.{◌≡◌, true, false, refl};
ghost use Rattle.keyframes.specs.Frames.{Emptied, Only, Stored};
ghost use Rattle.keyframes.specs.Stores.{one_frames};

use crate::store::KeyframeStore;
use ordered::Entry;
use values::Row;

#[derive(Drop)]
pub struct OneStore {
    last: Option<Entry<u32, Row>>,
}

impl OneStore {
    pub fn new() -> OneStore
        ensures { Emptied (one_frames result) }
    {
        OneStore { last: None }
    }
}

impl KeyframeStore for OneStore {
    ghost means = { one_frames };

    ghost retakes = { λ _ _ _. refl };

    fn takes(&self, _cycle: u32) -> bool {
        true
    }

    // No other row stays.
    fn put(&mut self, cycle: u32, row: &Row) -> bool
        ensures answer { result ≡ true }
        ensures stored { result ≡ true → Stored (one_frames self.old) cycle row.now (one_frames self.new) }
        ensures refused { result ≡ false → self.new ≡ self.old }
        ensures only { Only cycle row.now (one_frames self.new) }
    {
        self.last = Some(Entry {
            key: cycle,
            value: *row,
        });
        true
    }

    fn find(&self, cycle: u32) -> Option<u32> {
        self.last
            .as_ref()
            .filter(|kept| kept.key <= cycle)
            .map(|kept| kept.key)
    }

    fn fetch(&self, cycle: u32) -> Option<Row> {
        self.last
            .as_ref()
            .filter(|kept| kept.key == cycle)
            .map(|kept| kept.value)
    }

    fn cut(&mut self, cycle: u32) {
        if self.last.as_ref().is_some_and(|kept| kept.key > cycle) {
            self.last = None;
        }
    }

    fn empty(&mut self) {
        self.last = None;
    }
}
