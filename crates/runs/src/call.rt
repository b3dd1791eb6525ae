// A call of a run. A confirm and a discard take a slip of the hand by its place, 0 the oldest.
use ordered::Name;
use values::Value;

#[derive(Clone, Copy)]
pub enum Call {
    Step,
    Jump(u32),
    Goto(Name),
    // a cycle, a column and the value
    Write(u32, u32, Value),
    TakeBack,
    Begin,
    Confirm(usize),
    Drop(usize),
    Show(u32),
    Tally(u32),
}
