// Trials: begun with a slip, and ended by a confirm or a drop that spends it.
ghost use Rattle.sheet.specs.Calls.{Untouched};
ghost use Rattle.sheet.specs.Page.{page};
ghost use Rattle.player.specs.Calls.{Does, slip_or, spent_or, HandsBack};
ghost use Rattle.player.specs.Feed.{Begin, Confirm, Drop};
ghost use Rattle.player.specs.Law.{Obeys};
ghost use Rattle.player.specs.Moves.{Stays};

use crate::player::Player;
use blocks::BlockLibrary;
use faults::Fault;
use keyframes::KeyframeStore;
use sheet::{Returned, Sheet, Slip};

impl<L: BlockLibrary, S: KeyframeStore> Player<L, S> {
    // Opens a trial, and hands out its slip.
    pub fn begin_trial(&self, sheet: &mut Sheet) -> Result<Slip, Fault>
        ensures outcome { Does L.meaning S.means self.now (page sheet.old) Begin (slip_or result) self.now (page sheet.new) }
        ensures law { Obeys L.meaning S.means self.now (page sheet.old) Begin (slip_or result) self.now (page sheet.new) }
        ensures untouched { Untouched result sheet.old sheet.new }
    {
        self.serves(sheet)?;
        sheet.open_trial()
    }

    // Ends a trial and keeps its writes.
    pub fn confirm_trial(&self, sheet: &mut Sheet, slip: Slip) -> Result<u32, Returned>
        ensures outcome { Does L.meaning S.means self.now (page sheet.old) (Confirm slip.standing) (spent_or result) self.now (page sheet.new) }
        ensures law { Obeys L.meaning S.means self.now (page sheet.old) (Confirm slip.standing) (spent_or result) self.now (page sheet.new) }
        ensures untouched { Untouched result sheet.old sheet.new }
        ensures back { HandsBack slip result }
    {
        // no `map_err`: its closure would own the slip in the other case too
        if let Err(fault) = self.serves(sheet) {
            return Err(Returned { fault, slip });
        }
        sheet.close_trial(slip)?;
        Ok(0)
    }

    // Ends a trial and strikes out every write standing since its begin; answers the cycles worked.
    pub fn drop_trial(&mut self, sheet: &mut Sheet, slip: Slip) -> Result<u32, Returned>
        ensures outcome { Does L.meaning S.means self.old (page sheet.old) (Drop slip.standing) (spent_or result) self.new (page sheet.new) }
        ensures law { Obeys L.meaning S.means self.old (page sheet.old) (Drop slip.standing) (spent_or result) self.new (page sheet.new) }
        ensures untouched { Untouched result sheet.old sheet.new }
        ensures back { HandsBack slip result }
        ensures stays { Stays self.old self.new }
    {
        // no `map_err`: its closure would own the slip in the other case too
        if let Err(fault) = self.serves(sheet) {
            return Err(Returned { fault, slip });
        }
        let low = sheet.strike_since(slip)?;
        Ok(self.renew_from(sheet, low))
    }
}
