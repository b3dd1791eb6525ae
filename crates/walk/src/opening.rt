// Whether a drawing can be run over a sheet with a library.
ghost use Rattle.std.specs.Prelude.{◌≡◌, true, Some, Decides, MatchResult};
ghost use Rattle.sheet.specs.Page.{page};
ghost use Rattle.walk.specs.Opening.{fits, Openable, Unopenable};

use crate::machine::Machine;
use blocks::{BlockLibrary, Signature};
use draft::Block;
use faults::Fault;
use sheet::Sheet;

impl<'a, L: BlockLibrary> Machine<'a, L> {
    // Whether the library gives a block this signature and finds its parameters lawful.
    fn block_fits(&self, block: &Block, signature: Signature) -> bool
        ensures { Decides result (((L.meaning self.now.library.now).signature block.now.kind ≡ Some signature) × ((L.meaning self.now.library.now).lawful block.now.kind block.now.params.items ≡ true)) }
    {
        match self.library.signature(block.kind()) {
            Some(s) => s == signature && self.library.lawful(block.kind(), block.params()),
            None => false,
        }
    }

    // Whether the library gives each block the signature that it was checked with and finds it lawful.
    fn library_fits(&self) -> bool
        ensures { Decides result (fits (L.meaning self.now.library.now) self.now.drawing.now) }
    {
        self.drawing
            .blocks()
            .iter()
            .zip(self.drawing.signatures())
            .all(|(block, signature)| self.block_fits(block, *signature))
    }

    // Tests the rows, the columns and the library, in this order.
    pub fn opens(&self, sheet: &Sheet) -> Result<(), Fault>
        ensures { MatchResult result (λ _. Openable (L.meaning self.now.library.now) self.now.drawing.now (page sheet.now)) (Unopenable (L.meaning self.now.library.now) self.now.drawing.now (page sheet.now)) }
    {
        if sheet.rows() == 0 {
            return Err(Fault::SheetSize);
        }
        if !sheet.columns().same(self.drawing.columns()) {
            return Err(Fault::NotOpened);
        }
        if !self.library_fits() {
            return Err(Fault::LibraryDiffers);
        }
        Ok(())
    }
}
