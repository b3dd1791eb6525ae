// Files that are read and written back.
ghost use Rattle.std.specs.Prelude.{IfOk};
ghost use Rattle.packed_cases.specs.Reads.{Reads};

use draft::{ReadError, read_draft};
use packed::write_draft;
use std::alloc::{AllocError, Global};

// Whether the draft of the file is written back as the same bytes; none where there is no draft.
pub fn rewritten(heap: Global, file: &[u8]) -> Result<Option<bool>, AllocError>
    ensures { IfOk result (Reads file.now) }
{
    let draft = match read_draft(heap, file) {
        Ok(draft) => draft,
        Err(ReadError::Fault(_)) => return Ok(None),
        Err(ReadError::NoMemory) => return Err(AllocError),
    };
    let mut out = [0xA5u8; 1989];
    match write_draft(&draft, &mut out) {
        Ok(count) => Ok(Some(&out[0..count] == file)),
        Err(_) => Ok(Some(false)),
    }
}
