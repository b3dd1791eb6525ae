// Work on a player that is opened on a drawing and a sheet.
use crate::checksum::Checksum;
use crate::dice::Dice;
use crate::readings::cells_of;
use keyframes::{KeyframeStore, Lent, TableStore};
use ordered::Entry;
use packed::load;
use plant::Plant;
use player::Player;
use sheet::{Columns, Sheet};
use std::alloc::{AllocError, Global};
use values::Row;

// A player on a sheet, numbers that are thrown, and the checksum of what the player gives.
#[derive(Drop)]
pub(crate) struct Rig<'a, S: KeyframeStore> {
    player: Player<Plant, S>,
    sheet: Sheet<'a>,
    dice: Dice,
    sum: Checksum,
}

impl<S: KeyframeStore> Rig<'_, S> {
    fn last(&self) -> u32 {
        self.sheet.rows().saturating_sub(1)
    }

    // Adds the cycles worked and all values that are shown.
    fn add_shown(&mut self, worked: u32) {
        self.sum.add(u64::from(worked));
        for b in 0..64 {
            if let Ok(value) = self.player.show(b) {
                self.sum.add_value(value);
            }
        }
    }

    fn jump_to(&mut self, cycle: u32) -> Option<u32> {
        self.player.jump(&self.sheet, cycle).ok()
    }

    // From cycle 0 to the last, step by step, so many times.
    pub(crate) fn steps(&mut self, count: u32) -> Option<()> {
        for _ in 0..count {
            let _ = self.jump_to(0)?;
            for _ in 0..self.last() {
                let worked = self.player.step(&self.sheet).ok()?;
                self.add_shown(worked);
            }
        }
        Some(())
    }

    // The same in one jump.
    pub(crate) fn jump(&mut self, count: u32) -> Option<()> {
        for _ in 0..count {
            let _ = self.jump_to(0)?;
            let worked = self.jump_to(self.last())?;
            self.add_shown(worked);
        }
        Some(())
    }

    // So many jumps to cycles that are thrown.
    pub(crate) fn jumps(&mut self, count: u32) -> Option<()> {
        for _ in 0..count {
            let cycle = self.dice.below(self.sheet.rows());
            let worked = self.jump_to(cycle)?;
            self.add_shown(worked);
        }
        Some(())
    }

    // Writes a value that is thrown, at a place that is thrown; answers the cycles worked.
    fn write_thrown(&mut self) -> Option<u32> {
        let cycle = self.dice.below(self.sheet.rows());
        let column = self.dice.below(self.sheet.columns().len() as u32);
        let value_type = self.sheet.columns().get(column)?;
        let value = self.dice.value(value_type);
        self.player
            .write(&mut self.sheet, cycle, column, value)
            .ok()
    }

    // From the last cycle, so many writes at cycles that are thrown, which are then taken back.
    pub(crate) fn rework(&mut self, count: u32) -> Option<()> {
        let _ = self.jump_to(self.last())?;
        for _ in 0..count {
            let worked = self.write_thrown()?;
            self.add_shown(worked);
        }
        for _ in 0..count {
            let worked = self.player.take_back(&mut self.sheet).ok()?;
            self.add_shown(worked);
        }
        Some(())
    }

    // As many writes as a sheet takes, and then jumps from cycle 0 to the last, so many times.
    pub(crate) fn standing(&mut self, count: u32) -> Option<()> {
        for _ in 0..1024 {
            let _ = self.write_thrown()?;
        }
        self.jump(count)
    }
}

// Memory for the rows of a table.
fn table_memory(heap: Global, rows: usize) -> Result<Vec<Entry<u32, Row>>, AllocError> {
    let blank = Entry {
        key: 0u32,
        value: Row::blank(),
    };
    vec![in heap; blank; rows]
}

// What the work is done on.
#[derive(Clone, Copy)]
pub(crate) struct Inputs<'a> {
    pub(crate) file: &'a [u8],
    pub(crate) readings: &'a [u8],
    pub(crate) rows: u32,
}

// The checksum of work on the drawing of a file and a sheet of these readings, with a table of so many keyframes; none
// where the engine refuses something.
pub(crate) fn on_player<F>(
    heap: Global,
    inputs: Inputs,
    table: usize,
    seed: u64,
    work: F,
) -> Option<u64>
where
    F: FnOnce(&mut Rig<Lent<TableStore>>) -> Option<()>,
    requires { F.IsAlwaysCallable work }
{
    let drawing = load(heap, &Plant, inputs.file).ok()?;
    let columns = Columns::new(drawing.columns()).ok()?;
    let cells = cells_of(heap, drawing.columns(), inputs.readings).ok()?;
    let sheet = Sheet::new(columns, inputs.rows, &cells);
    let mut memory = table_memory(heap, table).ok()?;
    let mut store = TableStore::new(memory.as_mut_slice());
    let mut player = Player::new(heap, Plant, Lent { below: &mut store }).ok()?;
    player.open(drawing, &sheet).ok()?;
    let mut rig = Rig {
        player,
        sheet,
        dice: Dice::new(seed),
        sum: Checksum::new(),
    };
    work(&mut rig)?;
    Some(rig.sum.total())
}
