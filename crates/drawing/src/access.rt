// What a checked drawing holds.
ghost use Rattle.std.specs.Prelude.{◌≡◌};
ghost use Rattle.drawing.specs.Sound.{Sound};

use crate::drawing::Drawing;
use blocks::Signature;
use draft::{Block, Draft};
use values::ValueType;

impl Drawing {
    pub fn draft(&self) -> &Draft
        ensures { result.now ≡ self.now.draft }
    {
        &self.draft
    }

    pub fn columns(&self) -> &[ValueType]
        ensures { result.now ≡ self.now.draft.columns.items }
    {
        self.draft.columns()
    }

    pub fn blocks(&self) -> &[Block]
        ensures { result.now ≡ self.now.draft.blocks.items }
    {
        self.draft.blocks()
    }

    pub fn signatures(&self) -> &[Signature]
        ensures { result.now ≡ self.now.signatures.items }
    {
        self.signatures.as_slice()
    }

    // The blocks in the order in which they are worked.
    pub fn order(&self) -> &[usize]
        ensures { result.now ≡ self.now.order.items }
    {
        self.order.as_slice()
    }

    // Every drawing keeps right types by its signatures, and the order that placing the lowest block first gives.
    pub fn keeps(&self)
        ensures { Sound self.now.draft.columns.items self.now.draft.blocks.items
            self.now.signatures.items self.now.order.items }
    {}
}
