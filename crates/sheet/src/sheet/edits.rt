// Writes: appended, struck, and counted by column. `untouched` relates a sheet before a call to the sheet after it, so it
// stands on each call, and no type can say it.
ghost use Rattle.std.specs.Prelude.{◌≡◌, IfOk, OnOk};
ghost use Rattle.sheet.specs.Page.{page, write_of, appended, latest_write, struck_latest};
ghost use Rattle.sheet.specs.Rows.{rows_of};
ghost use Rattle.sheet.specs.Calls.{Does, Untouched, Answers, append_refusal, strike_refusal, tally_refusal, tally_of};
ghost use Rattle.sheet.specs.Laws.{Puts, SameBut, UndoesAppend};

use super::Sheet;
use crate::write::Write;
use faults::{Fault, Place};
use values::{Cell, Value};

impl Sheet<'_> {
    fn may_append(&self, cycle: u32, column: u32, value: Value) -> Result<(), Fault>
        ensures { Answers (append_refusal (page self.now) cycle column value) tt result }
    {
        let place = Place { cycle, column };
        if cycle >= self.rows {
            Err(Fault::CycleBeyond(place))
        } else if column as usize >= self.columns.len() {
            Err(Fault::ColumnBeyond(place))
        } else if value.value_type() != self.columns.type_at(column) {
            Err(Fault::WrongType(place))
        } else if !value.is_finite() {
            Err(Fault::NotFinite(place))
        } else if self.writes.len() >= 1024 {
            Err(Fault::ListFull(place))
        } else {
            Ok(())
        }
    }

    // Why a write may not be appended.
    pub fn append_refusal(&self, cycle: u32, column: u32, value: Value) -> Option<Fault>
        ensures { result ≡ append_refusal (page self.now) cycle column value }
    {
        self.may_append(cycle, column, value).err()
    }

    // One write more, which stands from now on.
    pub fn append(&mut self, cycle: u32, column: u32, value: Value) -> Result<(), Fault>
        ensures outcome { Does (append_refusal (page self.old) cycle column value) (page self.old) (appended (page self.old) (write_of cycle column value)) tt result (page self.new) }
        ensures puts { OnOk result (Puts cycle column value (rows_of (page self.old)) (rows_of (page self.new))) }
        ensures untouched { Untouched result self.old self.new }
    {
        self.may_append(cycle, column, value)?;
        let cell = Cell::from(value);
        self.writes.push(Write {
            cycle,
            column,
            cell,
        });
        Ok(())
    }

    fn may_strike(&self) -> Result<(), Fault>
        ensures { Answers (strike_refusal (page self.now)) tt result }
    {
        if self.writes.len() <= self.trial.unwrap_or(0) as usize {
            return Err(Fault::NothingToTakeBack);
        }
        Ok(())
    }

    // Why no write may be struck.
    pub fn strike_refusal(&self) -> Option<Fault>
        ensures { result ≡ strike_refusal (page self.now) }
    {
        self.may_strike().err()
    }

    // Strikes the latest write, inside a trial only one made since its begin. Answers its cycle.
    pub fn strike_latest(&mut self) -> Result<u32, Fault>
        ensures outcome { Does (strike_refusal (page self.old)) (page self.old) (struck_latest (page self.old)) (latest_write (page self.old)).cycle result (page self.new) }
        ensures rows { IfOk result (λ k. SameBut k (rows_of (page self.old)) (rows_of (page self.new))) }
        ensures undoes { UndoesAppend (page self.old) result (page self.new) }
        ensures untouched { Untouched result self.old self.new }
    {
        self.may_strike()?;
        let w = self.writes.pop();
        Ok(w.cycle)
    }

    // How many standing writes a column has.
    pub fn tally(&self, column: u32) -> Result<u32, Fault>
        ensures { Answers (tally_refusal (page self.now) column) (tally_of (page self.now) column) result }
    {
        if column as usize >= self.columns.len() {
            return Err(Fault::ColumnBeyond(Place { cycle: 0, column }));
        }
        let standing = self.writes.as_slice().iter();
        Ok(standing.filter(|s| s.write.column == column).count() as u32)
    }
}
