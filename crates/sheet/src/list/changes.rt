// Writes come to the end of the list, and leave from there.
ghost use Rattle.std.specs.Prelude.{◌≡◌, ◌-◌, ◌<◌, [], ◌∷◌, ◌++◌, length, take, drop, slice_index_or};
ghost use Rattle.sheet.specs.Cells.{no_write};
ghost use Rattle.sheet.specs.Chains.{written};
ghost use Rattle.sheet.specs.Held.{writes_of};
ghost use Rattle.sheet.specs.Calls.{lower, lowest};

use super::WriteList;
use crate::write::{Standing, Write};
use arrayvec::ArrayVec;

fn lower_of(cycle: u32, low: Option<u32>) -> u32
    ensures { result ≡ lower cycle low }
{
    low.map_or(cycle, |k| cycle.min(k))
}

impl WriteList {
    pub(crate) fn new() -> WriteList
        ensures { writes_of result ≡ [] }
    {
        WriteList {
            standing: ArrayVec::new(),
            latest: [None; 4096],
        }
    }

    pub(crate) fn len(&self) -> usize
        ensures { result ≡ length (writes_of self.now) }
    {
        self.standing.len()
    }

    pub(crate) fn as_slice(&self) -> &[Standing]
        ensures { written result.now ≡ writes_of self.now }
    {
        self.standing.as_slice()
    }

    pub(crate) fn push(&mut self, write: Write)
        requires room { length (writes_of self.old) < 1024 }
        requires cycle { write.cycle < 4096 }
        ensures { writes_of self.new ≡ writes_of self.old ++ write ∷ [] }
    {
        let place = self.len() as u16;
        let previous = self.latest[write.cycle as usize];
        self.standing.push(Standing { write, previous });
        self.latest[write.cycle as usize] = Some(place);
    }

    pub(crate) fn pop(&mut self) -> Write
        requires { 0 < length (writes_of self.old) }
        ensures write { result ≡ slice_index_or (writes_of self.old) (length (writes_of self.old) - 1) no_write }
        ensures left { writes_of self.new ≡ take (length (writes_of self.old) - 1) (writes_of self.old) }
    {
        let Standing { write, previous } = self.standing.pop().unwrap();
        self.latest[write.cycle as usize] = previous;
        write
    }

    // Leaves the first n writes; answers the lowest cycle among the others.
    pub(crate) fn cut(&mut self, n: usize) -> Option<u32>
        ensures low { result ≡ lowest (drop n (writes_of self.old)) }
        ensures left { writes_of self.new ≡ take n (writes_of self.old) }
    {
        let mut low = None;
        while self.len() > n {
            let w = self.pop();
            low = Some(lower_of(w.cycle, low));
        }
        low
    }
}
