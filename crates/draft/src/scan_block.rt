// Reads the columns and the blocks of a file.
ghost use Rattle.std.specs.Prelude.{◌≡◌, ◌+◌, ◌%◌, ◌^◌, ◌<◌, ◌≤◌, not, IfOk, OnOk, Ok, Err, MatchResult};
ghost use Rattle.std.specs.List.{position};
ghost use Rattle.draft.specs.Bits.{bits_of};
ghost use Rattle.draft.specs.Format.{ReadsOn, read_all};
ghost use Rattle.draft.specs.File.{name_byte, block_head, block_format, columns_format};
ghost use Rattle.draft.specs.Limits.{printable};
ghost use Rattle.draft.specs.Records.{block_of, columns_of, BlockPlain, ColumnsPlain};

use crate::assemble::{BlockHead, block_record, columns_record};
use crate::cursor::Cursor;
use crate::fault::ReadFault;
use crate::record::{BlockRecord, ColumnsRecord};
use crate::source::Source;
use values::{Cell, ValueType};

// Where the first byte is that no name has.
fn unprintable(bytes: &[u8]) -> Option<usize>
    ensures { result ≡ position (λ b. not (printable b)) bytes.now }
{
    bytes.iter().position(|b| !(32..=126).contains(b))
}

impl<'a> Cursor<'a> {
    // The name of `count` bytes here, where a byte begins: a part of the file.
    pub(crate) fn name(&self, count: u8) -> Result<&'a [u8], ReadFault>
        requires { (count ≤ 8) × (self.now.at % 8 ≡ 0) }
        ensures { MatchResult result (λ name. read_all name_byte count (bits_of self.now.file.now) self.now.at ≡ Ok name.now) (λ e. read_all name_byte count (bits_of self.now.file.now) self.now.at ≡ Err e) }
    {
        let rest = self.rest();
        let name = &rest[..rest.len().min(usize::from(count))];
        if let Some(i) = unprintable(name) {
            return Err(ReadFault::NameByte(self.at + 8 * i));
        }
        if name.len() < usize::from(count) {
            return Err(ReadFault::CutShort(self.at + 8 * name.len()));
        }
        Ok(name)
    }

    pub(crate) fn head(&self) -> Result<BlockHead, ReadFault>
        ensures { MatchResult result (λ h. (block_head.read (bits_of self.now.file.now) self.now.at ≡ Ok (h.kind, (h.inputs, (h.params, h.name_len)))) × (h.inputs ≤ 4) × (h.params ≤ 4) × (h.name_len ≤ 8)) (λ e. block_head.read (bits_of self.now.file.now) self.now.at ≡ Err e) }
    {
        let kind = self.field(0, 6)? as u8;
        let inputs = self.count(6, 3, 4)?;
        let params = self.count(9, 3, 4)?;
        let name_len = self.count(12, 4, 8)?;
        Ok(BlockHead {
            kind,
            inputs,
            params,
            name_len,
        })
    }

    pub(crate) fn block(&mut self) -> Result<BlockRecord<'a>, ReadFault>
        requires { self.old.at < 2 ^ 29 }
        ensures same { self.new.file.now ≡ self.old.file.now }
        ensures value { ReadsOn block_format block_of (bits_of self.old.file.now) self.old.at result self.new.at }
        ensures near { OnOk result (self.new.at ≤ self.old.at + 256) }
        ensures plain { IfOk result BlockPlain }
    {
        let head = self.head()?;
        self.skip(16);
        let sources = self.some(head.inputs, Source::Column(0))?;
        let params = self.some(head.params, Cell::Binary(false))?;
        self.padding()?;
        let name = self.name(head.name_len)?;
        self.skip(8 * usize::from(head.name_len));
        Ok(block_record(head, sources, params, name))
    }

    pub(crate) fn columns(&mut self, count: u8) -> Result<ColumnsRecord, ReadFault>
        requires { (self.old.at < 2 ^ 29) × (count ≤ 8) }
        ensures same { self.new.file.now ≡ self.old.file.now }
        ensures value { ReadsOn (columns_format count) columns_of (bits_of self.old.file.now) self.old.at result self.new.at }
        ensures near { OnOk result (self.new.at ≤ self.old.at + 23) }
        ensures plain { IfOk result ColumnsPlain }
    {
        let types = self.some(count, ValueType::Binary)?;
        self.padding()?;
        Ok(columns_record(count, types))
    }
}
