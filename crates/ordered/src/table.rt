// A table in lent memory, ordered by its keys.
ghost use Rattle.std.specs.Prelude.{◌≡◌, ◌≤◌, true, length, take};
ghost use Rattle.ordered.specs.Entries.{ascending};

use crate::entry::Entry;
use crate::key::Key;

mod methods;

// The first `len` entries are in use: the memory is lent, since nothing may allocate.
#[derive(Drop)]
pub struct OrderedTable<'a, K: Key, V> {
    entries: &'a mut [Entry<K, V>],
    len: usize,
    ghost few: { len ≤ length entries.now },
    ghost sorted: { ascending K.before (take len entries.now) ≡ true },
}
