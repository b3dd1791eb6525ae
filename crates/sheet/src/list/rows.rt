// The writes of one cycle over its row.
ghost use Rattle.std.specs.Prelude.{◌≡◌, ◌<◌, ◌≤◌, length, fold};
ghost use Rattle.sheet.specs.Held.{cells_of, writes_of};
ghost use Rattle.sheet.specs.Rows.{over};

use super::WriteList;
use crate::overlay::Overlay;
use crate::reading::Reading;
use crate::write::Standing;
use values::Cell;

impl WriteList {
    // A row with the writes of its cycle over it, from the latest back.
    pub(crate) fn over_row(&self, cycle: u32, first: &[Cell]) -> Reading
        requires few { length first.now ≤ 8 }
        requires cycle { cycle < 4096 }
        ensures { cells_of result ≡ fold (over cycle) first.now (writes_of self.now) }
    {
        let mut row = Overlay::new(first);
        let mut at = self.latest[cycle as usize];
        while let Some(i) = at {
            let Standing { write, previous } = self.standing.as_slice()[i as usize];
            row.give(write.column, write.cell);
            at = previous;
        }
        row.into_row()
    }
}
