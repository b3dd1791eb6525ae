// Walking from cycle 0.
ghost use Rattle.std.specs.Prelude.{◌≡◌, replicate, MatchResult};
ghost use Rattle.values.specs.Values.{absent};
ghost use Rattle.sheet.specs.Page.{page};
ghost use Rattle.walk.specs.Cycle.{Passes, worked};
ghost use Rattle.walk.specs.Walk.{values_in};
ghost use Rattle.walk.specs.Opening.{blocks_of};
ghost use Rattle.walk.specs.Outcome.{Found, Refuses};

use crate::machine::Machine;
use blocks::BlockLibrary;
use faults::{Fault, Place};
use sheet::Sheet;
use values::{Cell, Outputs, States};

impl<'a, L: BlockLibrary> Machine<'a, L> {
    // The states after a cycle.
    fn step(&self, states: &States, row: &[Cell]) -> States
        ensures { Passes (L.meaning self.now.library.now) (blocks_of self.now.drawing.now) states.now.all (values_in row.now) (worked (L.meaning self.now.library.now) (blocks_of self.now.drawing.now) states.now.all (values_in row.now) self.now.drawing.now.order.items (replicate 64 absent)) result.all }
    {
        let values = self.work(states, row);
        self.pass(states, row, &values)
    }

    // What the blocks show at a cycle of a sheet, walked from first states at cycle 0.
    pub fn walk(&self, sheet: &Sheet, cycle: u32) -> Result<Outputs, Fault>
        ensures { MatchResult result (λ v. Found (L.meaning self.now.library.now) self.now.drawing.now (page sheet.now) cycle v.all) (Refuses (L.meaning self.now.library.now) self.now.drawing.now (page sheet.now) cycle) }
    {
        self.opens(sheet)?;
        if cycle >= sheet.rows() {
            return Err(Fault::CycleBeyond(Place { cycle, column: 0 }));
        }
        let mut states = self.begin();
        for c in 0..cycle {
            let row = sheet.row(c);
            states = self.step(&states, row.as_slice());
        }
        let row = sheet.row(cycle);
        Ok(self.work(&states, row.as_slice()))
    }
}
