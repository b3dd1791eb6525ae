// Moves and show, as the user calls them.
ghost use Rattle.std.specs.Prelude.{◌≡◌, slice_index_or};
ghost use Rattle.values.specs.Values.{absent};
ghost use Rattle.sheet.specs.Page.{page, Page};
ghost use Rattle.marks.specs.Marks.{mark};
ghost use Rattle.player.specs.Calls.{Does, worked_or, value_or};
ghost use Rattle.player.specs.Feed.{Jump, Step, Goto, Show};
ghost use Rattle.player.specs.Law.{Obeys};
ghost use Rattle.player.specs.Moves.{Stays};

use crate::player::Player;
use blocks::BlockLibrary;
use faults::{Fault, Place};
use keyframes::KeyframeStore;
use marks::MarkTable;
use ordered::Name;
use sheet::Sheet;
use values::Value;

impl<L: BlockLibrary, S: KeyframeStore> Player<L, S> {
    // Moves the playhead to a cycle; answers the cycles worked.
    pub fn jump(&mut self, sheet: &Sheet, cycle: u32) -> Result<u32, Fault>
        ensures outcome { Does L.meaning S.means self.old (page sheet.now) (Jump cycle) (worked_or result) self.new (page sheet.now) }
        ensures law { Obeys L.meaning S.means self.old (page sheet.now) (Jump cycle) (worked_or result) self.new (page sheet.now) }
        ensures stays { Stays self.old self.new }
    {
        self.serves(sheet)?;
        if cycle >= sheet.rows() {
            return Err(Fault::CycleBeyond(Place { cycle, column: 0 }));
        }
        Ok(self.move_to(sheet, cycle))
    }

    // Moves the playhead one cycle on.
    pub fn step(&mut self, sheet: &Sheet) -> Result<u32, Fault>
        ensures outcome { Does L.meaning S.means self.old (page sheet.now) Step (worked_or result) self.new (page sheet.now) }
        ensures law { Obeys L.meaning S.means self.old (page sheet.now) Step (worked_or result) self.new (page sheet.now) }
        ensures stays { Stays self.old self.new }
    {
        self.jump(sheet, self.at + 1)
    }

    // Moves the playhead to the cycle of a mark.
    pub fn jump_to_mark(
        &mut self,
        sheet: &Sheet,
        marks: &MarkTable,
        name: Name,
    ) -> Result<u32, Fault>
        ensures outcome { Does L.meaning S.means self.old (page sheet.now) (Goto (mark marks.now name)) (worked_or result) self.new (page sheet.now) }
        ensures law { Obeys L.meaning S.means self.old (page sheet.now) (Goto (mark marks.now name)) (worked_or result) self.new (page sheet.now) }
        ensures stays { Stays self.old self.new }
    {
        let cycle = marks.get(name).ok_or(Fault::NoSuchMark)?;
        self.jump(sheet, cycle)
    }

    fn value_at(&self, block: u32) -> Value
        ensures { result ≡ slice_index_or self.now.shown.all block absent }
    {
        self.shown.get(block as usize)
    }

    // The value that a block shows.
    pub fn show(&self, block: u32) -> Result<Value, Fault>
        ensures outcome { (p : Page) → Does L.meaning S.means self.now p (Show block) (value_or result) self.now p }
        ensures law { (p : Page) → Obeys L.meaning S.means self.now p (Show block) (value_or result) self.now p }
    {
        if self.rows == 0 {
            return Err(Fault::NotOpened);
        }
        if block as usize >= self.drawing.blocks().len() {
            return Err(Fault::NoSuchBlock);
        }
        Ok(self.value_at(block))
    }
}
