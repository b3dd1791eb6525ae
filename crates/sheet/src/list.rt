// The list of standing writes.
ghost use Rattle.std.specs.Prelude.{◌≡◌, ◌≤◌, length};
ghost use Rattle.sheet.specs.Chains.{Chained};

use crate::write::Standing;
use arrayvec::ArrayVec;

mod changes;
mod rows;

// At most 1,024 writes, the oldest first. Those of a cycle are found from its latest one back by their places:
// nothing may allocate, and reading a cycle may take no longer for the writes of others.
#[derive(Drop)]
pub(crate) struct WriteList {
    standing: ArrayVec<Standing, 1024>,
    // by cycle, the place of its latest write
    latest: [Option<u16>; 4096],
    ghost heads: { length latest ≡ 4096 },
    ghost few: { length standing.items ≤ 1024 },
    ghost chained: { Chained standing.items latest },
}
