// What a draft holds.
ghost use Rattle.std.specs.Prelude.{◌≡◌, IfOk};
ghost use Rattle.draft.specs.Drafts.{means, built_in};

use crate::draft::{Block, Draft};
use crate::source::Source;
use std::alloc::{AllocError, Global};
use values::{Value, ValueType};

impl Draft {
    // The draft that is built in: a delay of binary values that is fed by itself.
    pub fn built_in(heap: Global) -> Result<Draft, AllocError>
        ensures { IfOk result (λ d. means d ≡ built_in) }
    {
        let params = Vec::from_slice(heap, &[Value::Binary(false)])?;
        let sources = Vec::from_slice(heap, &[Source::Block(0)])?;
        let mut blocks = Vec::new(heap);
        blocks.push(Block {
            kind: 1,
            name: Vec::new(heap),
            params,
            sources,
        })?;
        Ok(Draft {
            columns: Vec::new(heap),
            blocks,
        })
    }

    pub fn columns(&self) -> &[ValueType]
        ensures { result.now ≡ self.now.columns.items }
    {
        self.columns.as_slice()
    }

    pub fn blocks(&self) -> &[Block]
        ensures { result.now ≡ self.now.blocks.items }
    {
        self.blocks.as_slice()
    }
}

impl Block {
    pub fn kind(&self) -> u8
        ensures { result ≡ self.now.kind }
    {
        self.kind
    }

    pub fn name(&self) -> &[u8]
        ensures { result.now ≡ self.now.name.items }
    {
        self.name.as_slice()
    }

    pub fn params(&self) -> &[Value]
        ensures { result.now ≡ self.now.params.items }
    {
        self.params.as_slice()
    }

    pub fn sources(&self) -> &[Source]
        ensures { result.now ≡ self.now.sources.items }
    {
        self.sources.as_slice()
    }
}
