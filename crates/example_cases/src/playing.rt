// Runs of the demonstration drawing.
use crate::files::DEMONSTRATION;
use drawing::Drawing;
use faults::Report;
use keyframes::{Lent, TableStore};
use marks::MarkTable;
use ordered::Entry;
use packed::{LoadError, load};
use plant::Plant;
use player::Player;
use runs::{Call, EmptyHand, Halt, rehearse};
use sheet::{Columns, Sheet};
use std::alloc::AllocError;
use std::io;
use values::{Cell, Row, Value, ValueType};

fn demonstration(rt: &HostRuntime) -> io::Result<Drawing> {
    match load(rt.alloc(), &Plant, &DEMONSTRATION) {
        Ok(drawing) => Ok(drawing),
        Err(LoadError::Fault(_)) => Err(io::Error::from(io::ErrorKind::InvalidData)),
        Err(LoadError::NoMemory) => Err(io::Error::from(AllocError)),
    }
}

// Makes the calls on the demonstration, opened on its 100 rows over a table of 8, and prints the last answers.
fn show_run(rt: &HostRuntime, label: &str, calls: &[Call], last: usize) -> io::Result<()> {
    let heap = rt.alloc();
    let mut cells = [Cell::Whole(0); 100];
    cells[..40].fill(Cell::Whole(1));
    let columns = Columns::new(&[ValueType::Whole]).map_err(|_| io::Error::from(
        io::ErrorKind::InvalidData,
    ))?;
    let mut sheet = Sheet::new(columns, 100, &cells);
    let blank = Entry {
        key: 0u32,
        value: Row::blank(),
    };
    let mut memory = vec![in heap; blank; 8]?;
    let mut table = TableStore::new(memory.as_mut_slice());
    let marks = MarkTable::new(&mut []);
    let drawing = demonstration(rt)?;
    let mut player = Player::new(heap, Plant, Lent { below: &mut table })?;
    let mut answers = Vec::with_capacity(heap, calls.len())?;
    let hand = EmptyHand::with_room(heap, calls.len())?;
    match rehearse(
        &mut player,
        drawing,
        &mut sheet,
        &marks,
        calls,
        &mut answers,
        hand,
    ) {
        Ok(()) => (),
        Err(Halt::Refused(unopened)) => {
            let report = Report::from(unopened.fault);
            return println!(rt; "{label}: {report}");
        }
        Err(Halt::NoMemory(_)) => return Err(io::Error::from(AllocError)),
    }
    print!(rt; "{label}:")?;
    for answer in answers.iter().skip(calls.len().saturating_sub(last)) {
        print!(rt; " {answer}")?;
    }
    println!(rt; "")
}

pub fn show_runs(rt: &HostRuntime) -> io::Result<()> {
    let six = [
        Call::Jump(57),
        Call::Show(0),
        Call::Jump(3),
        Call::Show(0),
        Call::Jump(57),
        Call::Show(0),
        Call::Write(10, 0, Value::Whole(3)),
        Call::Show(0),
        Call::TakeBack,
        Call::Show(0),
        Call::Write(32, 0, Value::Whole(2)),
        Call::Show(0),
    ];
    show_run(rt, "six calls", &six, 12)?;
    show_run(
        rt,
        "row 99, then step",
        &[Call::Jump(99), Call::Step, Call::Show(0)],
        2,
    )?;
    let mut writes = vec![in rt.alloc(); Call::Write(7, 0, Value::Whole(1)); 1025]?;
    writes.push(Call::TakeBack)?;
    writes.push(Call::Write(7, 0, Value::Whole(2)))?;
    show_run(rt, "1,025 writes, back, write", &writes, 4)
}
