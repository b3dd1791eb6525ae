// A store that is lent is a store, so that a layer can stand on one whose memory is lent.
use crate::store::KeyframeStore;
use values::Row;

#[derive(Drop)]
pub struct Lent<'b, S: KeyframeStore> {
    pub below: &'b mut S,
}

impl<'b, S: KeyframeStore> KeyframeStore for Lent<'b, S> {
    ghost means = { λ s. S.means s.below.now };

    ghost retakes = { λ s c h. S.retakes s.below.now c h };

    fn takes(&self, cycle: u32) -> bool {
        self.below.takes(cycle)
    }

    fn put(&mut self, cycle: u32, row: &Row) -> bool {
        self.below.put(cycle, row)
    }

    fn find(&self, cycle: u32) -> Option<u32> {
        self.below.find(cycle)
    }

    fn fetch(&self, cycle: u32) -> Option<Row> {
        self.below.fetch(cycle)
    }

    fn cut(&mut self, cycle: u32) {
        self.below.cut(cycle);
    }

    fn empty(&mut self) {
        self.below.empty();
    }
}
