// Moves of the playhead: where they start, the cycles worked, and the rows put on the way. `stays` relates a player before
// a call to the player after it, so it stands on each call, and no type can say it; a cycle below 4,096 is one of a sheet's.
ghost use Rattle.std.specs.Prelude.{◌≡◌, ◌+◌, ◌<◌, ◌≤◌, true, nat_le};
ghost use Rattle.sheet.specs.Page.{page};
ghost use Rattle.sheet.specs.Rows.{rows_of};
ghost use Rattle.player.specs.Play.{Works, Reaches, Plays, head_of};
ghost use Rattle.player.specs.Moves.{Starts, Moves, Stays};

use crate::player::Player;
use blocks::BlockLibrary;
use keyframes::{KeyframeStore, reach_with};
use sheet::Sheet;
use values::States;

fn cycles_between(start: u32, end: u32) -> u32
    requires { start ≤ end }
    ensures { result + start ≡ end }
{
    end - start
}

impl<L: BlockLibrary, S: KeyframeStore> Player<L, S> {
    // Puts the row of a cycle just reached where it is due.
    pub(crate) fn keep(&mut self, cycle: u32)
        ensures reaches { Reaches (S.means self.old.store) cycle self.old.states.all (S.means self.new.store) }
        ensures stays { Stays self.old self.new }
        ensures states { self.new.states ≡ self.old.states }
    {
        reach_with(&mut self.store, cycle, &self.states);
    }

    // Works one cycle, from its states to those of the next.
    pub(crate) fn advance(&mut self, sheet: &Sheet, cycle: u32)
        requires { cycle < 4096 }
        ensures works { Works (L.meaning self.old.library) self.old.drawing (rows_of (page sheet.now)) cycle self.old.states.all self.new.states.all }
        ensures reaches { Reaches (S.means self.old.store) (cycle + 1) self.new.states.all (S.means self.new.store) }
        ensures stays { Stays self.old self.new }
    {
        let row = sheet.row(cycle);
        let cells = row.as_slice();
        let values = self.machine().work(&self.states, cells);
        self.states = self.machine().pass(&self.states, cells, &values);
        self.keep(cycle + 1);
    }

    // Works the cycles from start up to end.
    pub(crate) fn play(&mut self, sheet: &Sheet, start: u32, end: u32)
        requires order { start ≤ end }
        requires inside { end < 4096 }
        ensures plays { Plays (L.meaning self.old.library) self.old.drawing (rows_of (page sheet.now)) start self.old.states.all (S.means self.old.store) end self.new.states.all (S.means self.new.store) }
        ensures stays { Stays self.old self.new }
    {
        for c in start..end {
            self.advance(sheet, c);
        }
    }

    // Brings the states to the cycle that a move to end starts from; `current` says whether those at the playhead may be used.
    pub(crate) fn rewind(&mut self, end: u32, current: bool) -> u32
        ensures starts { Starts (L.meaning self.old.library) self.old.drawing (head_of S.means self.old) current end result self.new.states.all }
        ensures stays { Stays self.old self.new }
        ensures store { self.new.store ≡ self.old.store }
    {
        if let Some(c) = self.store.find(end) {
            if !current || self.at < c {
                if let Some(row) = self.store.fetch(c) {
                    self.states = States::from(&row);
                    return c;
                }
            }
        }
        if current {
            return self.at;
        }
        self.states = self.machine().begin();
        0
    }

    // Moves the playhead to end and shows that cycle; answers the cycles worked.
    pub(crate) fn go(&mut self, sheet: &Sheet, end: u32, current: bool) -> u32
        requires short { end < 4096 }
        requires inside { 0 < self.old.rows → end < self.old.rows }
        requires ahead { current ≡ true → self.old.at ≤ end }
        ensures moves { Moves (L.meaning self.old.library) self.old.drawing (rows_of (page sheet.now)) (head_of S.means self.old) current end result (head_of S.means self.new) }
        ensures stays { Stays self.old self.new }
    {
        let start = self.rewind(end, current);
        self.play(sheet, start, end);
        self.at = end;
        let row = sheet.row(end);
        self.shown = self.machine().work(&self.states, row.as_slice());
        cycles_between(start, end)
    }

    // Moves the playhead to a cycle, from its own states where it does not lie beyond.
    pub(crate) fn move_to(&mut self, sheet: &Sheet, cycle: u32) -> u32
        requires short { cycle < 4096 }
        requires inside { 0 < self.old.rows → cycle < self.old.rows }
        ensures moves { Moves (L.meaning self.old.library) self.old.drawing (rows_of (page sheet.now)) (head_of S.means self.old) (nat_le self.old.at cycle) cycle result (head_of S.means self.new) }
        ensures stays { Stays self.old self.new }
    {
        self.go(sheet, cycle, self.at <= cycle)
    }
}
