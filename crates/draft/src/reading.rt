// Reads a draft from its file.
ghost use Rattle.std.specs.Prelude.{◌≡◌, ◌≤◌, ◌++◌, map, IfOk, Ok, MatchResult, OnOk};
ghost use Rattle.faults.specs.declared.failure.Failure.TheVariants.{NoMemory};
ghost use Rattle.draft.specs.Drafts.{block_means, means, Unread, TheDraft, NoDraft};
ghost use Rattle.draft.specs.File.{block_format, read_file};
ghost use Rattle.draft.specs.Records.{block_of, columns_of};
ghost use Rattle.draft.specs.Runs.{columns_in, blocks_in, Fit};

use crate::draft::{Block, Draft};
use crate::fault::ReadError;
use crate::reader::Reader;
use crate::record::{BlockRecord, ColumnsRecord, Record};
use crate::source::Source;
use std::alloc::{AllocError, Global};
use values::{Value, ValueType};

// The meant part of a record, whose places are fields.
fn sources_of(heap: Global, block: &BlockRecord) -> Result<Vec<Source>, AllocError>
    requires { block.now.inputs ≤ 4 }
    ensures { IfOk result (λ v. v.items ≡ (block_of block.now).sources) }
{
    let sources = [block.source0, block.source1, block.source2, block.source3];
    Vec::from_slice(heap, &sources[0..usize::from(block.inputs)])
}

fn params_of(heap: Global, block: &BlockRecord) -> Result<Vec<Value>, AllocError>
    requires { block.now.params ≤ 4 }
    ensures { IfOk result (λ v. v.items ≡ (block_of block.now).params) }
{
    let params = [
        Value::from(block.param0),
        Value::from(block.param1),
        Value::from(block.param2),
        Value::from(block.param3),
    ];
    Vec::from_slice(heap, &params[0..usize::from(block.params)])
}

// The block of a record.
fn block_from(heap: Global, block: &BlockRecord) -> Result<Block, AllocError>
    requires { (block_format.fits (block_of block.now)) × ((block.now.inputs ≤ 4) × (block.now.params ≤ 4)) }
    ensures { IfOk result (λ b. block_means b ≡ block_of block.now) }
{
    let name = Vec::from_slice(heap, block.name)?;
    let params = params_of(heap, block)?;
    let sources = sources_of(heap, block)?;
    Ok(Block {
        kind: block.kind,
        name,
        params,
        sources,
    })
}

// Adds the types of the columns of a record.
fn add_columns(columns: &mut Vec<ValueType>, types: &ColumnsRecord) -> Result<(), AllocError>
    requires { types.now.count ≤ 8 }
    ensures { OnOk result (columns.new.items ≡ columns.old.items ++ columns_of types.now) }
{
    let all = [
        types.type0,
        types.type1,
        types.type2,
        types.type3,
        types.type4,
        types.type5,
        types.type6,
        types.type7,
    ];
    columns.extend_from_slice(&all[0..usize::from(types.count)])
}

// What the records so far tell of.
#[derive(Drop)]
struct Gathered {
    columns: Vec<ValueType>,
    blocks: Vec<Block>,
}

impl Gathered {
    // Adds what a record tells of.
    fn add(&mut self, heap: Global, part: Record) -> Result<(), ReadError>
        requires { Fit part }
        ensures { MatchResult result (λ _. (self.new.columns.items ≡ self.old.columns.items ++ columns_in part.entry) × (map block_means self.new.blocks.items ≡ map block_means self.old.blocks.items ++ blocks_in part.entry)) (λ e. e ≡ NoMemory) }
    {
        match part {
            Record::Header(_) => Ok(()),
            Record::Columns(types) => Ok(add_columns(&mut self.columns, &types)?),
            Record::Block(block) => {
                let block = block_from(heap, &block)?;
                Ok(self.blocks.push(block)?)
            }
        }
    }
}

// The draft of a file, or the first fault of the file.
pub fn read_draft(heap: Global, file: &[u8]) -> Result<Draft, ReadError>
    ensures value { MatchResult result (λ d. read_file file.now ≡ Ok (means d)) (Unread file.now) }
    ensures draft { MatchResult result (λ d. TheDraft file.now (means d)) (NoDraft file.now) }
{
    let mut reader = Reader::new(file);
    let mut gathered = Gathered {
        columns: Vec::new(heap),
        blocks: Vec::new(heap),
    };
    while let Some(part) = reader.next()? {
        gathered.add(heap, part)?;
    }
    let Gathered { columns, blocks } = gathered;
    Ok(Draft { columns, blocks })
}
