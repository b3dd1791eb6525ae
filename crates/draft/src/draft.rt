// Drafts: drawings as they were read, within the limits of files and not checked.
ghost use Rattle.std.specs.Prelude.{◌≡◌, ◌<◌, ◌≤◌, true, vec_len};
ghost use Rattle.draft.specs.Limits.{every, printable, holdable, numbered};

use crate::source::Source;
use values::{Value, ValueType};

#[derive(Drop)]
pub struct Block {
    pub(crate) kind: u8,
    pub(crate) name: Vec<u8>,
    pub(crate) params: Vec<Value>,
    pub(crate) sources: Vec<Source>,
    ghost known: { kind < 64 },
    ghost short: { vec_len name ≤ 8 },
    ghost text: { every printable name.items ≡ true },
    ghost few_params: { vec_len params ≤ 4 },
    ghost sound: { every holdable params.items ≡ true },
    ghost few_sources: { vec_len sources ≤ 4 },
    ghost within: { every numbered sources.items ≡ true },
}

#[derive(Drop)]
pub struct Draft {
    pub(crate) columns: Vec<ValueType>,
    pub(crate) blocks: Vec<Block>,
    ghost few_columns: { vec_len columns ≤ 8 },
    ghost some_block: { 1 ≤ vec_len blocks },
    ghost few_blocks: { vec_len blocks ≤ 64 },
}
