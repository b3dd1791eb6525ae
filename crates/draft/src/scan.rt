// Reads the parts of a file.
ghost use Rattle.std.specs.Prelude.{◌≡◌, ◌+◌, ◌%◌, ◌^◌, ◌<◌, ◌≤◌, IfOk, OnOk};
ghost use Rattle.draft.specs.Bits.{bits_of};
ghost use Rattle.draft.specs.Format.{ReadsOn};
ghost use Rattle.draft.specs.File.{zero_bit, header_format, zeros_format, up_to, padding_format};

use crate::cursor::Cursor;
use crate::fault::ReadFault;
use crate::record::Header;

impl Cursor<'_> {
    fn zero(&self) -> Result<u32, ReadFault>
        ensures { result ≡ zero_bit.read (bits_of self.now.file.now) self.now.at }
    {
        let bit = self.field(0, 1)?;
        if bit != 0 {
            return Err(ReadFault::ZeroBit(self.at));
        }
        Ok(bit)
    }

    // Moves over `count` zero bits.
    pub(crate) fn zeros(&mut self, count: usize) -> Result<(), ReadFault>
        requires { self.old.at + count < 2 ^ 30 }
        ensures same { self.new.file.now ≡ self.old.file.now }
        ensures value { ReadsOn (zeros_format count) (λ u. u) (bits_of self.old.file.now) self.old.at result self.new.at }
        ensures near { OnOk result (self.new.at ≡ self.old.at + count) }
    {
        for _ in 0..count {
            self.zero()?;
            self.skip(1);
        }
        Ok(())
    }

    // A count of `width` bits, at most `most`.
    pub(crate) fn count(&self, offset: usize, width: usize, most: u8) -> Result<u8, ReadFault>
        requires { (offset ≤ 32) × (width ≤ 32) }
        ensures value { result ≡ (up_to width most).read (bits_of self.now.file.now) (self.now.at + offset) }
        ensures few { IfOk result (λ n. n ≤ most) }
    {
        let count = self.field(offset, width)?;
        if count > u32::from(most) {
            return Err(ReadFault::Count(self.at + offset));
        }
        Ok(count as u8)
    }

    pub(crate) fn header(&mut self) -> Result<Header, ReadFault>
        requires { self.old.at < 2 ^ 29 }
        ensures same { self.new.file.now ≡ self.old.file.now }
        ensures value { ReadsOn header_format (λ h. h) (bits_of self.old.file.now) self.old.at result self.new.at }
        ensures few { IfOk result (λ h. (h.columns ≤ 8) × (h.blocks ≤ 64)) }
    {
        if self.field(0, 8)? != 1 {
            return Err(ReadFault::Edition(self.at));
        }
        let columns = self.count(8, 4, 8)?;
        let blocks = self.field(12, 7)?;
        if blocks < 1 || blocks > 64 {
            return Err(ReadFault::Count(self.at + 12));
        }
        self.skip(19);
        self.zeros(5)?;
        Ok(Header {
            columns,
            blocks: blocks as u8,
        })
    }

    // Moves over zero bits to the next byte.
    pub(crate) fn padding(&mut self) -> Result<(), ReadFault>
        requires { self.old.at + 7 < 2 ^ 30 }
        ensures same { self.new.file.now ≡ self.old.file.now }
        ensures value { ReadsOn padding_format (λ u. u) (bits_of self.old.file.now) self.old.at result self.new.at }
        ensures whole { OnOk result ((self.new.at % 8 ≡ 0) × (self.new.at ≤ self.old.at + 7)) }
    {
        self.zeros((8 - self.at % 8) % 8)
    }
}
