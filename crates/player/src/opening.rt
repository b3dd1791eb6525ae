// Opening a player on a drawing and a sheet.
ghost use Rattle.std.specs.Prelude.{◌≡◌, MatchResult};
ghost use Rattle.sheet.specs.Page.{page};
ghost use Rattle.walk.specs.Opening.{Openable, Unopenable};
ghost use Rattle.player.specs.Opens.{Opens};

use crate::player::Player;
use crate::unopened::Unopened;
use blocks::BlockLibrary;
use drawing::Drawing;
use faults::Fault;
use keyframes::KeyframeStore;
use sheet::Sheet;
use walk::Machine;

impl<L: BlockLibrary, S: KeyframeStore> Player<L, S> {
    // Tests the rows, the columns and the library, in this order.
    fn test_opening(&self, drawing: &Drawing, sheet: &Sheet) -> Result<(), Fault>
        ensures { MatchResult result (λ _. Openable (L.meaning self.now.library) drawing.now (page sheet.now)) (Unopenable (L.meaning self.now.library) drawing.now (page sheet.now)) }
    {
        Machine {
            library: &self.library,
            drawing,
        }
        .opens(sheet)
    }

    // Begins anew: the store is emptied, and the playhead is at cycle 0 with first states.
    fn start(&mut self, drawing: Drawing, sheet: &Sheet)
        requires { Openable (L.meaning self.old.library) drawing (page sheet.now) }
        ensures { Opens L.meaning S.means self.old drawing (page sheet.now) self.new }
    {
        self.store.empty();
        self.drawing = drawing;
        self.states = self.machine().begin();
        let row = sheet.row(0);
        self.shown = self.machine().work(&self.states, row.as_slice());
        self.rows = sheet.rows();
        self.at = 0;
    }

    // Opens the player on a drawing and a sheet. A refused open hands the drawing back.
    pub fn open(&mut self, drawing: Drawing, sheet: &Sheet) -> Result<(), Unopened>
        ensures { MatchResult result (λ _. Opens L.meaning S.means self.old drawing (page sheet.now) self.new) (λ e. Unopenable (L.meaning self.old.library) drawing (page sheet.now) e.fault × (e.drawing ≡ drawing) × (self.new ≡ self.old)) }
    {
        // no `map_err`: its closure would own the drawing in the other case too
        if let Err(fault) = self.test_opening(&drawing, sheet) {
            return Err(Unopened { fault, drawing });
        }
        self.start(drawing, sheet);
        Ok(())
    }
}
