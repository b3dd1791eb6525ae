// Drafts: drawings as their files give them, within limits and not checked. The reader alone makes them.
#![tactic(auto)]

mod access;
mod assemble;
mod bitfield;
mod cursor;
mod draft;
mod fault;
mod field;
mod laws;
mod reader;
mod reading;
mod record;
mod reports;
mod scan;
mod scan_block;
mod source;

pub use draft::{Block, Draft};
pub use fault::{ReadError, ReadFault};
pub use laws::files_and_drafts_match;
pub use reader::Reader;
pub use reading::read_draft;
pub use record::{BlockRecord, ColumnsRecord, Header, Record, Stage};
pub use source::Source;
