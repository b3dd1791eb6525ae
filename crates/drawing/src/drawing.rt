// A drawing that passed the check.
ghost use Rattle.drawing.specs.Sound.{Sound};

use crate::fault::CheckError;
use blocks::Signature;
use draft::Draft;

// The draft, with the signatures of its blocks and the order in which they are worked. The signatures are copied in, beside
// the draft's blocks, since a draft is what its file says and no more.
#[derive(Drop)]
pub struct Drawing {
    pub(crate) draft: Draft,
    pub(crate) signatures: Vec<Signature>,
    pub(crate) order: Vec<usize>,
    ghost sound: { ∥ Sound draft.columns.items draft.blocks.items signatures.items order.items ∥₁ },
}

// What the check works out: a drawing but for the draft, which a refusal hands back.
#[derive(Drop)]
pub(crate) struct Plan {
    pub(crate) signatures: Vec<Signature>,
    pub(crate) order: Vec<usize>,
}

// A draft that did not pass, and why.
#[derive(Drop)]
pub struct Rejected {
    pub draft: Draft,
    pub error: CheckError,
}
