// A store in lent memory, with room for as many rows as the memory has entries.
ghost use Rattle.std.specs.Prelude.{◌≡◌, ◌+◌, true, false, not, ◌&&◌, length, is_some, if◌then◌else◌};
ghost use Rattle.keyframes.specs.Frames.{Counts, Cut, Emptied, Stored, With};
ghost use Rattle.keyframes.specs.Tables.{count, kept, room, table_frames, table_retakes, upto};

use crate::store::KeyframeStore;
use ordered::{Entry, OrderedTable};
use values::Row;

#[derive(Drop)]
pub struct TableStore<'a> {
    rows: OrderedTable<'a, u32, Row>,
}

impl<'a> TableStore<'a> {
    pub fn new(memory: &'a mut [Entry<u32, Row>]) -> TableStore<'a>
        ensures empty { Emptied (table_frames result) }
        ensures count { count result ≡ 0 }
        ensures room { room result ≡ length memory.old }
    {
        TableStore {
            rows: OrderedTable::new(memory),
        }
    }

    // How many rows are held.
    pub fn len(&self) -> usize
        ensures value { result ≡ count self.now }
        ensures rows { Counts (table_frames self.now) result }
    {
        self.rows.entries().len()
    }

    // How many rows there is room for.
    pub fn capacity(&self) -> usize
        ensures { result ≡ room self.now }
    {
        self.rows.capacity()
    }
}

impl<'a> KeyframeStore for TableStore<'a> {
    ghost means = { table_frames };

    ghost retakes = { table_retakes };

    fn takes(&self, cycle: u32) -> bool {
        self.len() < self.capacity() || self.rows.get(&cycle).is_some()
    }

    // No row is lost by a put.
    fn put(&mut self, cycle: u32, row: &Row) -> bool
        ensures answer { result ≡ (table_frames self.old).takes cycle }
        ensures stored { result ≡ true → Stored (table_frames self.old) cycle row.now (table_frames self.new) }
        ensures refused { result ≡ false → self.new ≡ self.old }
        ensures all { result ≡ true → With (table_frames self.old) cycle row.now (table_frames self.new) }
        ensures count { count self.new ≡ count self.old + (if result && not (is_some (kept self.old cycle)) then 1 else 0) }
        ensures room { room self.new ≡ room self.old }
    {
        self.rows.put(cycle, *row).is_ok()
    }

    fn find(&self, cycle: u32) -> Option<u32> {
        self.rows.floor(&cycle).map(|entry| entry.key)
    }

    fn fetch(&self, cycle: u32) -> Option<Row> {
        self.rows.get(&cycle).copied()
    }

    fn cut(&mut self, cycle: u32)
        ensures cut { Cut (table_frames self.old) cycle (table_frames self.new) }
        ensures count { count self.new ≡ upto self.old cycle }
        ensures room { room self.new ≡ room self.old }
    {
        self.rows.cut(&cycle);
    }

    fn empty(&mut self)
        ensures empty { Emptied (table_frames self.new) }
        ensures count { count self.new ≡ 0 }
        ensures room { room self.new ≡ room self.old }
    {
        self.rows.clear();
    }
}
