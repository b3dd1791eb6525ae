// One cycle: the values of the blocks, and the states that they pass on.
ghost use Rattle.std.specs.Prelude.{◌≡◌, ◌≤◌, map, length, take, replicate, Some, slice_index_or};
ghost use Rattle.values.specs.Values.{absent};
ghost use Rattle.walk.specs.Cycle.{read, shown, out_at, next_at, worked, Passes, Begins};
ghost use Rattle.walk.specs.Walk.{values_in};

use crate::machine::Machine;
use blocks::BlockLibrary;
use draft::{Block, Source};
use values::{Cell, Outputs, State, States, Value};

// The values of up to four inputs. No `ArrayVec`: it fills its places by `Default`, and no value is the default.
#[derive(Clone, Copy)]
struct Inputs {
    all: [Value; 4],
    len: usize,
    ghost few: { len ≤ 4 },
}

impl Inputs {
    fn as_slice(&self) -> &[Value]
        ensures { result.now ≡ take self.now.len self.now.all }
    {
        &self.all[..self.len]
    }
}

// What a source gives.
fn read_source(row: &[Cell], values: &Outputs, source: Source) -> Value
    ensures { result ≡ read (values_in row.now) (shown values.now.all) source }
{
    match source {
        Source::Column(c) => read_column(row, usize::from(c)),
        Source::Block(b) => values.get(usize::from(b)),
    }
}

fn read_column(row: &[Cell], c: usize) -> Value
    ensures { result ≡ slice_index_or (values_in row.now) c absent }
{
    row.get(c)
        .map(|cell| Value::from(*cell))
        .unwrap_or(Value::Binary(false))
}

// What the sources of a block give.
fn gather(row: &[Cell], values: &Outputs, sources: &[Source]) -> Inputs
    requires { length sources.now ≤ 4 }
    ensures { take result.len result.all ≡ map (read (values_in row.now) (shown values.now.all)) sources.now }
{
    let mut all = [Value::Binary(false); 4];
    // tried `all.iter_mut().zip(sources)`: `returns` stays open, since such a loop's variables have no `all`
    for (i, source) in sources.iter().enumerate() {
        all[i] = read_source(row, values, *source);
    }
    Inputs {
        all,
        len: sources.len(),
    }
}

impl<'a, L: BlockLibrary> Machine<'a, L> {
    // A block's value by its state and what its sources give.
    fn block_out(&self, block: &Block, state: State, row: &[Cell], values: &Outputs) -> Value
        ensures { result ≡ out_at (L.meaning self.now.library.now) (Some block.now) state (values_in row.now) (shown values.now.all) }
    {
        let inputs = gather(row, values, block.sources());
        self.library
            .out(block.kind(), block.params(), state, inputs.as_slice())
    }

    // `next` gives a state where `out` gives a value: one function with a closure for both would be longer than the two.
    fn block_next(&self, block: &Block, state: State, row: &[Cell], values: &Outputs) -> State
        ensures { result ≡ next_at (L.meaning self.now.library.now) (Some block.now) state (values_in row.now) (shown values.now.all) }
    {
        let inputs = gather(row, values, block.sources());
        self.library
            .next(block.kind(), block.params(), state, inputs.as_slice())
    }

    // The values of a cycle with these states, each block worked in the drawing's order.
    pub fn work(&self, states: &States, row: &[Cell]) -> Outputs
        ensures { result.all ≡ worked (L.meaning self.now.library.now) self.now.drawing.now.draft.blocks.items states.now.all (values_in row.now) self.now.drawing.now.order.items (replicate 64 absent) }
    {
        let blocks = self.drawing.blocks();
        let mut values = Outputs::new();
        for b in self.drawing.order() {
            let v = self.block_out(&blocks[*b], states.get(*b), row, &values);
            values.set(*b, v);
        }
        values
    }

    // The states that a cycle with these values passes on.
    pub fn pass(&self, states: &States, row: &[Cell], values: &Outputs) -> States
        ensures { Passes (L.meaning self.now.library.now) self.now.drawing.now.draft.blocks.items states.now.all (values_in row.now) values.now.all result.all }
    {
        let mut after = States::new();
        // the places of the states are the blocks' numbers
        for (i, block) in self.drawing.blocks().iter().enumerate() {
            let next = self.block_next(block, states.get(i), row, values);
            after.set(i, next);
        }
        after
    }

    // The first states.
    pub fn begin(&self) -> States
        ensures { Begins (L.meaning self.now.library.now) self.now.drawing.now.draft.blocks.items result.all }
    {
        let mut states = States::new();
        for (i, block) in self.drawing.blocks().iter().enumerate() {
            let first = self.library.first(block.kind(), block.params());
            states.set(i, first);
        }
        states
    }
}
