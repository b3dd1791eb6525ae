// Bit fields of a file, the most significant bit first.
ghost use Rattle.std.specs.Prelude.{◌≡◌, ◌+◌, ◌*◌, ◌^◌, ◌<◌, ◌≤◌, length, IfOk, slice_index};
ghost use Rattle.draft.specs.Bits.{bits_of};
ghost use Rattle.draft.specs.Format.{read_field};

use crate::cursor::Cursor;
use crate::fault::ReadFault;

// Bit `i` of the file, counted from the most significant bit of its first byte.
pub(crate) fn bit(file: &[u8], i: usize) -> u8
    requires { i < 8 * length file.now }
    ensures { result ≡ slice_index (bits_of file.now) i }
{
    (file[i / 8] >> (7 - i % 8)) & 1
}

impl Cursor<'_> {
    // The number in the `width` bits that begin `offset` bits on.
    pub(crate) fn field(&self, offset: usize, width: usize) -> Result<u32, ReadFault>
        requires { (offset ≤ 2 ^ 30) × (width ≤ 32) }
        ensures value { result ≡ read_field (bits_of self.now.file.now) (self.now.at + offset) width }
        ensures small { IfOk result (λ v. v < 2 ^ width) }
    {
        let at = self.at + offset;
        if (at + width).div_ceil(8) > self.file.len() {
            return Err(ReadFault::CutShort(at));
        }
        let mut value = 0;
        // a loop: of a `fold` it was not proved that it gives the number that `value_at` tells
        for i in 0..width {
            value = value * 2 + u32::from(bit(self.file, at + i));
        }
        Ok(value)
    }
}
