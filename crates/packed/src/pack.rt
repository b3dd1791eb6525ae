// Writes the file of a draft.
ghost use Rattle.std.specs.Prelude.{◌≡◌, ◌+◌, ◌<◌, ◌≤◌, [], ◌++◌, length, take, drop, IfOk, Ok, MatchResult};
ghost use Rattle.faults.specs.declared.fault.Fault.TheVariants.{OutputShort};
ghost use Rattle.draft.specs.Drafts.{means};
ghost use Rattle.draft.specs.File.{header_format, draft_format, read_file};
ghost use Rattle.packed.specs.Appends.{Appends};
ghost use Rattle.packed.specs.Written.{Written, Rewritten};

use crate::bitfield::BitWriter;
use crate::emit::write_all;
use draft::{Draft, Header};
use faults::Fault;

// Writes the header.
fn write_header(header: Header, file: &mut BitWriter)
    requires { length file.old + 24 ≤ 16448 }
    ensures value { Appends header_format header file.old file.new }
    ensures end { length file.new ≡ length file.old + 24 }
{
    file.field(8, 1);
    file.field(4, u32::from(header.columns));
    file.field(7, u32::from(header.blocks));
    file.field(5, 0);
}

// Writes the whole file. The counts fit: a draft has at most 8 columns and 64 blocks.
fn pack(draft: &Draft, file: &mut BitWriter)
    requires { file.old ≡ [] }
    ensures { file.new ≡ draft_format.bits 0 (means draft.now) }
{
    let types = draft.columns();
    let blocks = draft.blocks();
    let header = Header {
        columns: types.len() as u8,
        blocks: blocks.len() as u8,
    };
    write_header(header, file);
    write_all(file, types);
    file.padding();
    write_all(file, blocks);
}

// Copies the file to the front of `out`; refuses, and writes nothing, where it does not fit.
fn deliver(file: &[u8], out: &mut [u8]) -> Result<usize, Fault>
    ensures { MatchResult result (λ n. (n ≡ length file.now) × (n ≤ length out.old) × (out.new ≡ file.now ++ drop n out.old)) (λ e. (e ≡ OutputShort) × (length out.old < length file.now) × (out.new ≡ out.old)) }
{
    let count = file.len();
    if out.len() < count {
        return Err(Fault::OutputShort);
    }
    let front = &mut out[..count];
    front.copy_from_slice(file);
    Ok(count)
}

// Writes the file of the draft to the front of `out`; how many bytes it has. The file is written to memory of
// its own first: how long it is shows at its end, and `out` stays as it was where it is too short.
pub fn write_draft(draft: &Draft, out: &mut [u8]) -> Result<usize, Fault>
    ensures value { Written (means draft.now) out.old out.new result }
    ensures back { IfOk result (λ n. read_file (take n out.new) ≡ Ok (means draft.now)) }
    ensures again { Rewritten (means draft.now) out.old out.new result }
{
    let mut file = BitWriter::new();
    pack(draft, &mut file);
    deliver(file.bytes(), out)
}
