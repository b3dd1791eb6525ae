// A table of marks in lent memory, in the byte order of their names.
ghost use Rattle.std.specs.Prelude.{◌≡◌, true, List, length};
ghost use Rattle.marks.specs.Marks.{Blank, mark, marks_of, Outcome, room};
ghost use Rattle.marks.specs.Puts.{Latest, Put, Runs};
ghost use Rattle.marks.specs.declared.table.MarkTable.{MarkTable};
ghost use Rattle.ordered.specs.Entries.{ascending};
ghost use Rattle.ordered.specs.Orders.{by_name};

use faults::Fault;
use ordered::{Entry, Name, OrderedTable};

#[derive(Drop)]
pub struct MarkTable<'a> {
    marks: OrderedTable<'a, Name, u32>,
}

impl<'a> MarkTable<'a> {
    pub fn new(memory: &'a mut [Entry<Name, u32>]) -> MarkTable<'a>
        ensures blank { Blank result }
        ensures room { room result ≡ length memory.old }
    {
        MarkTable {
            marks: OrderedTable::new(memory),
        }
    }

    // The marks, in the byte order of their names.
    pub fn entries(&self) -> &[Entry<Name, u32>]
        ensures value { result.now ≡ marks_of self.now }
        ensures order { ascending by_name result.now ≡ true }
    {
        self.marks.entries()
    }

    // How many marks there is room for.
    pub fn capacity(&self) -> usize
        ensures { result ≡ room self.now }
    {
        self.marks.capacity()
    }

    // The cycle of a mark: the one last put under its name, whatever puts made the table; none if it was never put.
    pub fn get(&self, name: Name) -> Option<u32>
        ensures value { result ≡ mark self.now name }
        ensures latest { (t : MarkTable) (puts : List Put) → Blank t → Runs t puts self.now → Latest puts name result }
    {
        self.marks.get(&name).copied()
    }

    // Puts a mark, in place of one of its name; a new one is refused where the table is full.
    pub fn put(&mut self, name: Name, cycle: u32) -> Result<(), Fault>
        ensures { Outcome self.old name cycle self.new result }
    {
        self.marks.put(name, cycle).map_err(|_| Fault::MarksFull)
    }
}
