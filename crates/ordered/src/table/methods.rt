// What a table does. That a change keeps the memory's size stands at each change: it relates two values, so no invariant says it.
ghost use Rattle.std.specs.Prelude.{◌≡◌, true, [], length, is_ok, IfErr};
ghost use Rattle.ordered.specs.Entries.{ascending, at, Cut, Floor, Placed};
ghost use Rattle.ordered.specs.Search.{Parts, Place};
ghost use Rattle.ordered.specs.Table.{capacity, items};
ghost use Rattle.std.specs.Option.{option_copied};

use super::OrderedTable;
use crate::entry::Entry;
use crate::full::Full;
use crate::insert::insert_at;
use crate::key::Key;

impl<'a, K: Key, V: Copy> OrderedTable<'a, K, V> {
    pub fn new(entries: &'a mut [Entry<K, V>]) -> Self
        ensures empty { items result ≡ [] }
        ensures capacity { capacity result ≡ length entries.old }
    {
        OrderedTable { entries, len: 0 }
    }

    // The entries in use.
    pub fn entries(&self) -> &[Entry<K, V>]
        ensures value { result.now ≡ items self.now }
        ensures order { ascending K.before result.now ≡ true }
    {
        &self.entries[..self.len]
    }

    // How many entries the memory has room for.
    pub fn capacity(&self) -> usize
        ensures { result ≡ capacity self.now }
    {
        self.entries.len()
    }

    // The value at a key.
    pub fn get(&self, key: &K) -> Option<&V>
        ensures { option_copied result ≡ at K.before (items self.now) key.now }
    {
        let i = self.place(key).ok()?;
        Some(&self.entries()[i].value)
    }

    // The last entry at or before a key.
    pub fn floor(&self, key: &K) -> Option<&Entry<K, V>>
        ensures { Floor K.before (items self.now) key.now (option_copied result) }
    {
        self.entries()[..self.rank(key)].last()
    }

    // Puts a value at a key, in place of the one there; refused where the key is new and the table full.
    pub fn put(&mut self, key: K, value: V) -> Result<(), Full>
        ensures placed { Placed K.before (capacity self.old) (items self.old) (items self.new) key value (is_ok result) }
        ensures refused { IfErr result (λ _. self.new ≡ self.old) }
        ensures capacity { capacity self.new ≡ capacity self.old }
    {
        let entry = Entry { key, value };
        match self.place(&key) {
            Ok(i) => self.entries[i] = entry,
            Err(i) => {
                if self.len == self.entries.len() {
                    return Err(Full);
                }
                insert_at(self.entries, i, self.len, entry);
                self.len += 1;
            }
        }
        Ok(())
    }

    // Keeps the entries at or before a key.
    pub fn cut(&mut self, key: &K)
        ensures cut { Cut K.before (items self.old) (items self.new) key.now }
        ensures capacity { capacity self.new ≡ capacity self.old }
    {
        self.len = self.rank(key);
    }

    pub fn clear(&mut self)
        ensures empty { items self.new ≡ [] }
        ensures capacity { capacity self.new ≡ capacity self.old }
    {
        self.len = 0;
    }

    // How many entries are at or before a key.
    fn rank(&self, key: &K) -> usize
        ensures { Parts K.before (items self.now) key.now result }
    {
        self.entries()
            .partition_point(|entry| entry.key.cmp(key).is_le())
    }

    // Where a key stands, or else where it belongs.
    fn place(&self, key: &K) -> Result<usize, usize>
        ensures { Place K.before (items self.now) key.now result }
    {
        self.entries().binary_search_by(|entry| entry.key.cmp(key))
    }
}
