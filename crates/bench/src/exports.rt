// What a program outside calls, by C's rules: a name and numbers for each piece of work, and 0 in place of an error. A
// `Global` takes no place among the arguments that it passes.
use crate::files::{load_often, read_often, write_often};
use crate::tasks::{Inputs, on_player};
use std::alloc::Global;

// What is answered in place of a checksum.
pub const REFUSED: u64 = 0;

// The most rows that a table of keyframes is ever asked to hold.
const KEYFRAMES: usize = 128;

#[unsafe(no_mangle)]
pub extern "C" fn lundzavar_steps(
    heap: Global,
    file: &[u8],
    readings: &[u8],
    rows: u32,
    count: u32,
) -> u64 {
    let inputs = Inputs {
        file,
        readings,
        rows,
    };
    on_player(heap, inputs, 0, 0, |rig| rig.steps(count)).unwrap_or(REFUSED)
}

#[unsafe(no_mangle)]
pub extern "C" fn lundzavar_jump(
    heap: Global,
    file: &[u8],
    readings: &[u8],
    rows: u32,
    count: u32,
) -> u64 {
    let inputs = Inputs {
        file,
        readings,
        rows,
    };
    on_player(heap, inputs, 0, 0, |rig| rig.jump(count)).unwrap_or(REFUSED)
}

#[unsafe(no_mangle)]
pub extern "C" fn lundzavar_jumps(
    heap: Global,
    file: &[u8],
    readings: &[u8],
    rows: u32,
    count: u32,
    seed: u64,
) -> u64 {
    let inputs = Inputs {
        file,
        readings,
        rows,
    };
    on_player(heap, inputs, KEYFRAMES, seed, |rig| rig.jumps(count)).unwrap_or(REFUSED)
}

#[unsafe(no_mangle)]
pub extern "C" fn lundzavar_rework(
    heap: Global,
    file: &[u8],
    readings: &[u8],
    rows: u32,
    count: u32,
    seed: u64,
) -> u64 {
    let inputs = Inputs {
        file,
        readings,
        rows,
    };
    on_player(heap, inputs, KEYFRAMES, seed, |rig| rig.rework(count)).unwrap_or(REFUSED)
}

#[unsafe(no_mangle)]
pub extern "C" fn lundzavar_standing(
    heap: Global,
    file: &[u8],
    readings: &[u8],
    rows: u32,
    count: u32,
    seed: u64,
) -> u64 {
    let inputs = Inputs {
        file,
        readings,
        rows,
    };
    on_player(heap, inputs, 0, seed, |rig| rig.standing(count)).unwrap_or(REFUSED)
}

#[unsafe(no_mangle)]
pub extern "C" fn lundzavar_read(heap: Global, file: &[u8], count: u32) -> u64 {
    read_often(heap, file, count).unwrap_or(REFUSED)
}

#[unsafe(no_mangle)]
pub extern "C" fn lundzavar_load(heap: Global, file: &[u8], count: u32) -> u64 {
    load_often(heap, file, count).unwrap_or(REFUSED)
}

#[unsafe(no_mangle)]
pub extern "C" fn lundzavar_write(heap: Global, file: &[u8], count: u32) -> u64 {
    write_often(heap, file, count).unwrap_or(REFUSED)
}
