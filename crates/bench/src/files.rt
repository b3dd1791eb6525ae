// Work on files.
use crate::checksum::Checksum;
use draft::{Draft, Source, read_draft};
use packed::{load, write_draft};
use plant::Plant;
use std::alloc::Global;

fn add_source(source: Source, sum: &mut Checksum) {
    match source {
        Source::Column(n) => sum.add(u64::from(n)),
        Source::Block(n) => sum.add(256 + u64::from(n)),
    }
}

// All that a draft holds.
fn add_draft(draft: &Draft, sum: &mut Checksum) {
    sum.add(draft.columns().len() as u64);
    for block in draft.blocks() {
        sum.add(u64::from(block.kind()));
        for source in block.sources() {
            add_source(*source, sum);
        }
        for param in block.params() {
            sum.add_value(*param);
        }
        for byte in block.name() {
            sum.add(u64::from(*byte));
        }
    }
}

// The checksum of the file's draft, read so many times.
pub(crate) fn read_often(heap: Global, file: &[u8], count: u32) -> Option<u64> {
    let mut sum = Checksum::new();
    for _ in 0..count {
        let draft = read_draft(heap, file).ok()?;
        add_draft(&draft, &mut sum);
    }
    Some(sum.total())
}

// The checksum of the file's drawing, loaded so many times.
pub(crate) fn load_often(heap: Global, file: &[u8], count: u32) -> Option<u64> {
    let mut sum = Checksum::new();
    for _ in 0..count {
        let drawing = load(heap, &Plant, file).ok()?;
        for block in drawing.order() {
            sum.add(*block as u64);
        }
    }
    Some(sum.total())
}

// The checksum of what is written for the file's draft, so many times into the same memory.
pub(crate) fn write_often(heap: Global, file: &[u8], count: u32) -> Option<u64> {
    let draft = read_draft(heap, file).ok()?;
    let mut memory = vec![in heap; 0u8; 2048].ok()?;
    let mut sum = Checksum::new();
    for _ in 0..count {
        let length = write_draft(&draft, memory.as_mut_slice()).ok()?;
        sum.add(length as u64);
    }
    for byte in memory.as_slice() {
        sum.add(u64::from(*byte));
    }
    Some(sum.total())
}
