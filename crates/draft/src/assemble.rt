// Makes the records of a file.
ghost use Rattle.draft.specs.Records.{block_of, columns_of, source_places, param_places, type_places};
ghost use Rattle.std.specs.Prelude.{◌≡◌, map, length, take};
ghost use Rattle.values.specs.Packed.{value_of};

use crate::record::{BlockRecord, ColumnsRecord};
use crate::source::Source;
use values::{Cell, ValueType};

// The numbers that begin a block.
#[derive(Clone, Copy)]
pub(crate) struct BlockHead {
    pub(crate) kind: u8,
    pub(crate) inputs: u8,
    pub(crate) params: u8,
    pub(crate) name_len: u8,
}

pub(crate) fn columns_record(count: u8, types: [ValueType; 8]) -> ColumnsRecord
    requires { length types ≡ 8 }
    ensures places { (result.count ≡ count) × (type_places result ≡ types) }
    ensures value { columns_of result ≡ take count types }
{
    let [type0, type1, type2, type3, type4, type5, type6, type7] = types;
    ColumnsRecord {
        count,
        type0,
        type1,
        type2,
        type3,
        type4,
        type5,
        type6,
        type7,
    }
}

pub(crate) fn block_record<'a>(
    head: BlockHead,
    sources: [Source; 4],
    params: [Cell; 4],
    name: &'a [u8],
) -> BlockRecord<'a>
    requires { (length sources ≡ 4) × (length params ≡ 4) }
    ensures places { (result.inputs ≡ head.inputs) × (result.params ≡ head.params) × (source_places result ≡ sources) × (param_places result ≡ params) }
    ensures value { block_of result ≡ record { kind = head.kind; sources = take head.inputs sources; params = map value_of (take head.params params); name = name.now } }
{
    let [source0, source1, source2, source3] = sources;
    let [param0, param1, param2, param3] = params;
    BlockRecord {
        kind: head.kind,
        name,
        inputs: head.inputs,
        source0,
        source1,
        source2,
        source3,
        params: head.params,
        param0,
        param1,
        param2,
        param3,
    }
}
