// The fields that a file has several of, one after the other.
ghost use Rattle.std.specs.Prelude.{◌≡◌, ℕ, ◌+◌, ◌*◌, ◌^◌, ◌<◌, ◌≤◌, OnOk};
ghost use Rattle.draft.specs.Bits.{bits_of};
ghost use Rattle.draft.specs.Format.{Format, ReadsArray};
ghost use Rattle.draft.specs.File.{type_format, source_format, cell_format};

use crate::cursor::Cursor;
use crate::fault::ReadFault;
use crate::source::Source;
use values::{Cell, ValueType};

pub(crate) trait Field: Copy {
    ghost format: { Format Self };

    fn read(cursor: &Cursor) -> Result<Self, ReadFault>
        ensures { result ≡ format.read (bits_of cursor.now.file.now) cursor.now.at };

    // How many bits it takes.
    fn size(self) -> usize
        ensures same { (p : ℕ) → format.size p self ≡ result }
        ensures small { result ≤ 34 };
}

impl Field for ValueType {
    ghost format = { type_format };

    fn read(cursor: &Cursor) -> Result<ValueType, ReadFault> {
        match cursor.field(0, 2)? {
            0 => Err(ReadFault::NoType(cursor.at)),
            1 => Ok(ValueType::Binary),
            2 => Ok(ValueType::Whole),
            _ => Ok(ValueType::Real),
        }
    }

    fn size(self) -> usize {
        2
    }
}

impl Field for Source {
    ghost format = { source_format };

    fn read(cursor: &Cursor) -> Result<Source, ReadFault> {
        let is_block = cursor.field(0, 1)? == 1;
        let number = cursor.field(1, 7)? as u8;
        Ok(if is_block {
            Source::Block(number)
        } else {
            Source::Column(number)
        })
    }

    fn size(self) -> usize {
        8
    }
}

impl Field for Cell {
    ghost format = { cell_format };

    fn read(cursor: &Cursor) -> Result<Cell, ReadFault> {
        match ValueType::read(cursor)? {
            ValueType::Binary => Ok(Cell::Binary(cursor.field(2, 1)? == 1)),
            ValueType::Whole => Ok(Cell::Whole((cursor.field(2, 16)? as u16).cast_signed())),
            ValueType::Real => {
                let pattern = cursor.field(2, 32)?;
                if pattern / 0x80_0000 % 256 == 255 {
                    return Err(ReadFault::NotFinite(cursor.at + 2));
                }
                Ok(Cell::Real(pattern))
            }
        }
    }

    fn size(self) -> usize {
        match self {
            Cell::Binary(_) => 3,
            Cell::Whole(_) => 18,
            Cell::Real(_) => 34,
        }
    }
}

impl Cursor<'_> {
    // The next `count` fields, with `plain` in the places after them.
    pub(crate) fn some<T: Field, const N: usize>(
        &mut self,
        count: u8,
        plain: T,
    ) -> Result<[T; N], ReadFault>
        requires { (count ≤ N) × (self.old.at + 34 * count < 2 ^ 30) }
        ensures same { self.new.file.now ≡ self.old.file.now }
        ensures value { ReadsArray T.format N plain count (bits_of self.old.file.now) self.old.at result self.new.at }
        ensures near { OnOk result (self.new.at ≤ self.old.at + 34 * count) }
    {
        let mut fields = [plain; N];
        let meant = &mut fields[..usize::from(count)];
        for field in meant.iter_mut() {
            *field = T::read(self)?;
            self.skip(field.size());
        }
        Ok(fields)
    }
}
