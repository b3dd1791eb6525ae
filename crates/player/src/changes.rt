// Writes and taking them back: after a change the player is brought up to date from its lowest cycle on.
ghost use Rattle.sheet.specs.Calls.{Untouched};
ghost use Rattle.sheet.specs.Page.{page};
ghost use Rattle.sheet.specs.Rows.{rows_of};
ghost use Rattle.player.specs.Calls.{Does, Renews, RenewsFrom, worked_or};
ghost use Rattle.player.specs.Feed.{Write, TakeBack};
ghost use Rattle.player.specs.Law.{Obeys};
ghost use Rattle.player.specs.Moves.{Stays};
ghost use Rattle.player.specs.Play.{head_of};

use crate::player::Player;
use blocks::BlockLibrary;
use faults::Fault;
use keyframes::KeyframeStore;
use sheet::Sheet;
use values::Value;

impl<L: BlockLibrary, S: KeyframeStore> Player<L, S> {
    // Brings the player up to date after a change whose lowest cycle is k; answers the cycles worked.
    pub(crate) fn renew(&mut self, sheet: &Sheet, k: u32) -> u32
        ensures renews { Renews S.means (L.meaning self.old.library) self.old.drawing (rows_of (page sheet.now)) (head_of S.means self.old) k result (head_of S.means self.new) }
        ensures stays { Stays self.old self.new }
    {
        self.store.cut(k);
        if k < self.at {
            return self.go(sheet, self.at, false);
        }
        if k == self.at {
            let row = sheet.row(k);
            self.shown = self.machine().work(&self.states, row.as_slice());
        }
        0
    }

    // The same where the lowest cycle may be none, and then nothing is changed.
    pub(crate) fn renew_from(&mut self, sheet: &Sheet, low: Option<u32>) -> u32
        ensures renews { RenewsFrom S.means (L.meaning self.old.library) self.old.drawing (rows_of (page sheet.now)) (head_of S.means self.old) low result (head_of S.means self.new) }
        ensures stays { Stays self.old self.new }
    {
        match low {
            Some(k) => self.renew(sheet, k),
            None => 0,
        }
    }

    // Writes a value over the reading of a cycle and a column; answers the cycles worked.
    pub fn write(
        &mut self,
        sheet: &mut Sheet,
        cycle: u32,
        column: u32,
        value: Value,
    ) -> Result<u32, Fault>
        ensures outcome { Does L.meaning S.means self.old (page sheet.old) (Write cycle column value) (worked_or result) self.new (page sheet.new) }
        ensures law { Obeys L.meaning S.means self.old (page sheet.old) (Write cycle column value) (worked_or result) self.new (page sheet.new) }
        ensures untouched { Untouched result sheet.old sheet.new }
        ensures stays { Stays self.old self.new }
    {
        self.serves(sheet)?;
        sheet.append(cycle, column, value)?;
        Ok(self.renew(sheet, cycle))
    }

    // Strikes out the latest standing write, inside a trial only one made since its begin; answers the cycles worked.
    pub fn take_back(&mut self, sheet: &mut Sheet) -> Result<u32, Fault>
        ensures outcome { Does L.meaning S.means self.old (page sheet.old) TakeBack (worked_or result) self.new (page sheet.new) }
        ensures law { Obeys L.meaning S.means self.old (page sheet.old) TakeBack (worked_or result) self.new (page sheet.new) }
        ensures untouched { Untouched result sheet.old sheet.new }
        ensures stays { Stays self.old self.new }
    {
        self.serves(sheet)?;
        let k = sheet.strike_latest()?;
        Ok(self.renew(sheet, k))
    }
}
