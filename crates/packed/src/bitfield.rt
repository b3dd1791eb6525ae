// Files that are written bit after bit, the most significant bit of a byte first.
ghost use Rattle.std.specs.Prelude.{◌≡◌, ◌+◌, ◌*◌, ◌%◌, ◌^◌, ◌<◌, ◌≤◌, [], ◌++◌, length};
ghost use Rattle.draft.specs.Bits.{field, bits_of};
ghost use Rattle.draft.specs.File.{padding_format};
ghost use Rattle.packed.specs.Appends.{Appends};

use std::marker::Model;

// Memory for the longest file, and how many bits of it are written: a number of bits, which no list of bytes has.
#[derive(Drop)]
pub(crate) struct BitWriter {
    bytes: [u8; 2056],
    len: usize,
}

// The bits that are written.
impl Model for BitWriter {
    ghost use Rattle.std.specs.Prelude.{ℕ, List, take, ◌≤◌};
    ghost use Rattle.draft.specs.Bits.{bits_of};

    ghost Value = { List ℕ };

    ghost view = { λ w. take w.len (bits_of w.bytes) };

    ghost invariant = { λ w. w.len ≤ 16448 };
}

impl BitWriter {
    pub(crate) fn new() -> BitWriter
        ensures { result ≡ [] }
    {
        BitWriter {
            bytes: [0; 2056],
            len: 0,
        }
    }

    // How many bits are written.
    pub(crate) fn len(&self) -> usize
        ensures value { result ≡ length self.now }
        ensures few { result ≤ 16448 }
    {
        self.len
    }

    // The bytes of a file of whole bytes.
    pub(crate) fn bytes(&self) -> &[u8]
        requires { length self.now % 8 ≡ 0 }
        ensures { bits_of result.now ≡ self.now }
    {
        &self.bytes[..self.len / 8]
    }

    // Writes `value` as the next `width` bits, which end in the byte in which they begin.
    fn part(&mut self, width: usize, value: u32)
        requires { (0 < width) × (value < 2 ^ width) × (length self.old % 8 + width ≤ 8) × (length self.old + width ≤ 16448) }
        ensures { self.new ≡ self.old ++ field width value }
    {
        let len = self.len();
        let free = 8 - len % 8;
        let begun = u32::from(self.bytes[len / 8]) >> free;
        let byte = ((begun << width) + value) << (free - width);
        self.bytes[len / 8] = byte as u8;
        self.len = len + width;
    }

    // Writes the last `width` bits of `value`, as many at a time as the byte that is begun has room for.
    pub(crate) fn field(&mut self, width: usize, value: u32)
        requires { (width ≤ 32) × (length self.old + width ≤ 16448) }
        ensures value { self.new ≡ self.old ++ field width value }
        ensures end { length self.new ≡ length self.old + width }
    {
        let mut left = width;
        while left > 0 {
            let next = left.min(8 - self.len() % 8);
            left -= next;
            self.part(next, (value >> left) % (1u32 << next));
        }
    }

    // Writes zero bits up to the next byte.
    pub(crate) fn padding(&mut self)
        ensures value { Appends padding_format tt self.old self.new }
        ensures near { length self.new ≤ length self.old + 7 }
    {
        let gap = (8 - self.len() % 8) % 8;
        self.field(gap, 0);
    }
}
