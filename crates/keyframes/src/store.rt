// What every store of keyframes does.
ghost use Rattle.std.specs.Prelude.{◌≡◌, true, false};
ghost use Rattle.keyframes.specs.Frames.{Cut, Emptied, Found, Frames, Retakes, Stored};

use values::Row;

pub trait KeyframeStore {
    // the rows held, and the cycles whose row would be accepted
    ghost means: { Self → Frames };

    // a held cycle's row is always accepted
    ghost retakes: { (s : Self) → Retakes (means s) };

    fn takes(&self, cycle: u32) -> bool
        ensures { result ≡ (means self.now).takes cycle };

    // Keeps a row, where the cycle's row is taken; it may let go of others. Else nothing changes. The answer is that of
    // `takes`, so a refusal has nothing more to say.
    fn put(&mut self, cycle: u32, row: &Row) -> bool
        ensures answer { result ≡ (means self.old).takes cycle }
        ensures stored { result ≡ true → Stored (means self.old) cycle row.now (means self.new) }
        ensures refused { result ≡ false → self.new ≡ self.old };

    // The highest held cycle at or below a given one.
    fn find(&self, cycle: u32) -> Option<u32>
        ensures { Found (means self.now) cycle result };

    // A held cycle's row, by value, since a store may keep its rows in another form.
    fn fetch(&self, cycle: u32) -> Option<Row>
        ensures { result ≡ (means self.now).held cycle };

    // Removes the rows above a cycle.
    fn cut(&mut self, cycle: u32)
        ensures { Cut (means self.old) cycle (means self.new) };

    // Removes all rows.
    fn empty(&mut self)
        ensures { Emptied (means self.new) };
}
