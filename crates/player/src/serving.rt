// Whether a player serves a sheet.
ghost use Rattle.std.specs.Prelude.{◌≡◌, true, false, MatchResult};
ghost use Rattle.faults.specs.declared.fault.Fault.TheVariants.{NotOpened};
ghost use Rattle.sheet.specs.Page.{page};
ghost use Rattle.walk.specs.Opening.{columns_of};
ghost use Rattle.player.specs.Calls.{serves};

use crate::player::Player;
use blocks::BlockLibrary;
use faults::Fault;
use keyframes::KeyframeStore;
use sheet::Sheet;

impl<L: BlockLibrary, S: KeyframeStore> Player<L, S> {
    // Opened, and with a sheet of as many rows and such columns.
    pub(crate) fn serves(&self, sheet: &Sheet) -> Result<(), Fault>
        ensures { MatchResult result (λ _. serves self.now.rows (columns_of self.now.drawing) (page sheet.now) ≡ true) (λ fault. (fault ≡ NotOpened) × (serves self.now.rows (columns_of self.now.drawing) (page sheet.now) ≡ false)) }
    {
        if self.rows == 0 || self.rows != sheet.rows() {
            return Err(Fault::NotOpened);
        }
        if sheet.columns().same(self.drawing.columns()) {
            Ok(())
        } else {
            Err(Fault::NotOpened)
        }
    }
}
