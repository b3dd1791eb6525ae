// A reader that hands out the records of a file one by one.
ghost use Rattle.std.specs.Prelude.{◌≡◌, ◌^◌, ◌≤◌, MatchResult};
ghost use Rattle.draft.specs.Bits.{bits_of};
ghost use Rattle.draft.specs.Reading.{header_bit, column_count, farthest, HandsOut, Refuses};
ghost use Rattle.draft.specs.Runs.{RunsReadTheFile, TellsTheSameAgain};
ghost use Rattle.draft.specs.declared.record.Stage.TheVariants.{Start};

use crate::cursor::Cursor;
use crate::fault::ReadFault;
use crate::record::{Record, Stage};

#[derive(Drop)]
pub struct Reader<'a> {
    cursor: Cursor<'a>,
    stage: Stage,
    ghost begins: { header_bit stage cursor.at ≡ 0 },
    ghost narrow: { column_count stage ≤ 8 },
    ghost near: { farthest stage cursor.at ≤ 2 ^ 20 },
}

impl<'a> Reader<'a> {
    pub fn new(file: &'a [u8]) -> Reader<'a>
        ensures start { (result.cursor.file.now ≡ file.now) × (result.cursor.at ≡ 0) × (result.stage ≡ Start) }
        ensures runs { RunsReadTheFile }
        ensures again { TellsTheSameAgain }
    {
        Reader {
            cursor: Cursor { file, at: 0 },
            stage: Stage::Start,
        }
    }

    // The next record, none at the end of the file, or the first fault.
    pub fn next(&mut self) -> Result<Option<Record<'a>>, ReadFault>
        ensures same { self.new.cursor.file.now ≡ self.old.cursor.file.now }
        ensures cases { MatchResult result (λ o. HandsOut (bits_of self.old.cursor.file.now) self.old.stage self.old.cursor.at o self.new.stage self.new.cursor.at) (λ e. Refuses (bits_of self.old.cursor.file.now) self.old.stage self.old.cursor.at e × (self.new.stage ≡ self.old.stage) × (self.new.cursor.at ≡ self.old.cursor.at)) }
    {
        // each step reads with a copy of the cursor, which it keeps where nothing was refused
        match self.stage {
            Stage::Start => {
                let mut cursor = self.cursor;
                let header = cursor.header()?;
                self.cursor = cursor;
                self.stage = Stage::Types(header);
                Ok(Some(Record::Header(header)))
            }
            Stage::Types(header) => {
                let mut cursor = self.cursor;
                let columns = cursor.columns(header.columns)?;
                self.cursor = cursor;
                self.stage = Stage::Blocks(header.blocks);
                Ok(Some(Record::Columns(columns)))
            }
            Stage::Blocks(0) => {
                if self.cursor.at / 8 < self.cursor.file.len() {
                    return Err(ReadFault::LeftOver(self.cursor.at));
                }
                Ok(None)
            }
            Stage::Blocks(left) => {
                let mut cursor = self.cursor;
                let block = cursor.block()?;
                self.cursor = cursor;
                self.stage = Stage::Blocks(left - 1);
                Ok(Some(Record::Block(block)))
            }
        }
    }
}
