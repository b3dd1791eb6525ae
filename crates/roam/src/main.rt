// `roam DRAWING SHEET [STORE] < SCRIPT`: loads a drawing, makes a sheet, opens a player and makes the calls of a script.
#![tactic(auto)]

mod arguments;
mod shown;

use crate::arguments::{Arguments, StoreChoice, read_arguments};
use crate::shown::show_all;
use cli::{Inputs, Stop, ended, read_inputs, unreadable};
use drawing::Drawing;
use keyframes::{KeyframeStore, Lent, NoStore, OneStore, TableStore};
use marks::MarkTable;
use ordered::{Entry, Name};
use plant::Plant;
use player::Player;
use runs::{EmptyHand, Halt, rehearse};
use script::{Script, read_script};
use sheet::Sheet;
use std::io;
use std::io::Read;
use std::process::ExitCode;
use values::{Row, ValueType};

fn read_calls(rt: &HostRuntime, types: &[ValueType]) -> Result<Script, Stop> {
    let mut text = String::new(rt.alloc());
    // no `map_err`: the path is made in memory, which may be wanting
    match rt.stdin().read_to_string(&mut text) {
        Ok(_) => Ok(read_script(rt.alloc(), text.as_str(), types)?),
        Err(e) => Err(unreadable(String::from_str(rt.alloc(), "standard input")?, e)),
    }
}

// Opens a player over a store, makes the calls and shows what they answered.
fn play_on<S: KeyframeStore + Drop>(
    rt: &HostRuntime,
    store: S,
    drawing: Drawing,
    sheet: &mut Sheet,
    script: &Script,
) -> Result<(), Stop> {
    let heap = rt.alloc();
    let blank = Entry {
        key: Name { bytes: [0; 8] },
        value: 0u32,
    };
    let mut memory = vec![in heap; blank; script.marks.len()]?;
    let mut marks = MarkTable::new(memory.as_mut_slice());
    for mark in script.marks.as_slice() {
        let _ = marks.put(mark.name, mark.cycle);
    }
    let mut player = Player::new(heap, Plant, store)?;
    let mut answers = Vec::with_capacity(heap, script.calls.len())?;
    let hand = EmptyHand::with_room(heap, script.calls.len())?;
    match rehearse(
        &mut player,
        drawing,
        sheet,
        &marks,
        &script.calls,
        &mut answers,
        hand,
    ) {
        Ok(()) => Ok(show_all(rt, &player, script, &answers)?),
        Err(Halt::NoMemory(_)) => Err(Stop::NoMemory),
        Err(Halt::Refused(unopened)) => Err(Stop::Open(unopened.fault.into())),
    }
}

fn play_table(
    rt: &HostRuntime,
    rows: usize,
    drawing: Drawing,
    sheet: &mut Sheet,
    script: &Script,
) -> Result<(), Stop> {
    let blank = Entry {
        key: 0u32,
        value: Row::blank(),
    };
    let mut memory = vec![in rt.alloc(); blank; rows]?;
    let mut table = TableStore::new(memory.as_mut_slice());
    play_on(rt, Lent { below: &mut table }, drawing, sheet, script)
}

fn run(rt: &HostRuntime) -> Result<(), Stop> {
    let Arguments {
        drawing,
        sheet,
        store,
    } = read_arguments(rt)?;
    let Inputs {
        drawing,
        columns,
        types,
        rows,
        cells,
    } = read_inputs(rt, drawing, sheet)?;
    let script = read_calls(rt, &types)?;
    let mut sheet = Sheet::new(columns, rows, &cells);
    match store {
        StoreChoice::Nothing => play_on(rt, NoStore, drawing, &mut sheet, &script),
        StoreChoice::One => play_on(rt, OneStore::new(), drawing, &mut sheet, &script),
        StoreChoice::Table(rows) => play_table(rt, rows, drawing, &mut sheet, &script),
    }
}

fn main(rt: HostRuntime) -> io::Result<ExitCode> {
    ended(&rt, run(&rt))
}
