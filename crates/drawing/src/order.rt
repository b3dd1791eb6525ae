// The order in which the blocks of a drawing are worked.
ghost use Rattle.std.specs.Prelude.{◌≡◌, ℕ, ◌<◌, false, length, IfOk, Decides, MatchOption, MatchResult};
ghost use Rattle.drawing.specs.Members.{among, In};
ghost use Rattle.drawing.specs.Net.{Ready, Next, Placing, Stopped, Wired, Arranged};
ghost use Rattle.drawing.specs.Tests.{Unordered};
ghost use Rattle.drawing.specs.Wiring.{feeders, net};

use crate::fault::{CheckError, CheckFault};
use blocks::Signature;
use draft::{Block, Source};
use std::alloc::{AllocError, Global};

// Blocks, with a signature for each.
#[derive(Clone, Copy)]
pub(crate) struct Signed<'a> {
    pub(crate) blocks: &'a [Block],
    pub(crate) signatures: &'a [Signature],
    ghost signed: { length signatures.now ≡ length blocks.now },
}

// `contains` in the word of the specs, said once for the three that ask.
fn placed(order: &[usize], v: usize) -> bool
    ensures { result ≡ among v order.now }
{
    order.contains(&v)
}

// Whether each block among the sources is placed.
fn all_placed(sources: &[Source], order: &[usize]) -> bool
    ensures { Decides result ((u : ℕ) → In u (feeders sources.now) → In u order.now) }
{
    sources.iter().all(|s| match *s {
        Source::Column(_) => true,
        Source::Block(u) => placed(order, usize::from(u)),
    })
}

// Whether the sources of a block allow it to be placed: it delays, or they are all placed.
fn allowed(signature: Signature, sources: &[Source], order: &[usize]) -> bool
    ensures { Decides result
        (signature.delaying ≡ false → (u : ℕ) → In u (feeders sources.now) → In u order.now) }
{
    signature.delaying || all_placed(sources, order)
}

// The lowest block that is not placed.
fn unplaced(order: &[usize], blocks: usize) -> Option<usize>
    ensures { MatchOption result
        ((u : ℕ) → u < blocks → In u order.now)
        (λ v. (v < blocks) × (among v order.now ≡ false) × ((u : ℕ) → u < v → In u order.now)) }
{
    (0..blocks).find(|v| !placed(order, *v))
}

impl<'a> Signed<'a> {
    // Whether block `v` is not placed yet, and its sources allow it.
    fn ready(&self, order: &[usize], v: usize) -> bool
        requires { v < length self.now.blocks.now }
        ensures { Decides result (Ready (net self.now.blocks.now self.now.signatures.now) order.now v) }
    {
        !placed(order, v) && allowed(self.signatures[v], self.blocks[v].sources(), order)
    }

    // The lowest block that can be placed.
    fn next(&self, order: &[usize]) -> Option<usize>
        ensures { MatchOption result
            (Stopped (net self.now.blocks.now self.now.signatures.now) order.now)
            (Next (net self.now.blocks.now self.now.signatures.now) order.now) }
    {
        (0..self.blocks.len()).find(|v| self.ready(order, *v))
    }

    // Places blocks until none can be placed.
    fn place_all(&self, heap: Global) -> Result<Vec<usize>, AllocError>
        ensures { IfOk result (λ o.
            Placing (net self.now.blocks.now self.now.signatures.now) o.items
            × Stopped (net self.now.blocks.now self.now.signatures.now) o.items) }
    {
        let mut order = Vec::new(heap);
        while let Some(v) = self.next(&order) {
            order.push(v)?;
        }
        Ok(order)
    }

    // Places every block, the lowest that can be placed first, or tells the lowest block on a closed chain of blocks
    // that do not delay, or fed from one through such blocks.
    pub(crate) fn arrange(&self, heap: Global) -> Result<Vec<usize>, CheckError>
        requires { Wired (net self.now.blocks.now self.now.signatures.now) }
        ensures { MatchResult result
            (λ o. Arranged (net self.now.blocks.now self.now.signatures.now) o.items)
            (Unordered (net self.now.blocks.now self.now.signatures.now)) }
    {
        let order = self.place_all(heap)?;
        match unplaced(&order, self.blocks.len()) {
            Some(v) => Err(CheckError::Fault(CheckFault::Loop(v))),
            None => Ok(order),
        }
    }
}
