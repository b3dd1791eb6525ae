// A library and a drawing that it works.

use blocks::BlockLibrary;
use drawing::Drawing;

#[derive_where(Clone, Copy)]
pub struct Machine<'a, L: BlockLibrary> {
    pub library: &'a L,
    pub drawing: &'a Drawing,
}
