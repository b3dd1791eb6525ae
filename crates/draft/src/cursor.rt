// Places in a file.
ghost use Rattle.std.specs.Prelude.{◌≡◌, ◌+◌, ◌/◌, ◌^◌, ◌<◌, drop};

// The bit of a file at which the next part begins.
#[derive(Clone, Copy)]
pub(crate) struct Cursor<'a> {
    pub(crate) file: &'a [u8],
    pub(crate) at: usize,
    ghost near: { at < 2 ^ 30 },
}

impl<'a> Cursor<'a> {
    // The bytes from that of the next bit on.
    pub(crate) fn rest(&self) -> &'a [u8]
        ensures { result.now ≡ drop (self.now.at / 8) self.now.file.now }
    {
        self.file.get(self.at / 8..).unwrap_or(&[])
    }

    // Moves `bits` on.
    pub(crate) fn skip(&mut self, bits: usize)
        requires { self.old.at + bits < 2 ^ 30 }
        ensures { (self.new.file.now ≡ self.old.file.now) × (self.new.at ≡ self.old.at + bits) }
    {
        self.at += bits;
    }
}
