// `play DRAWING SHEET`: loads a drawing, makes a sheet and shows what every block shows at the last row.
#![tactic(auto)]

use blocks::BlockLibrary;
use cli::{Inputs, Program, Shown, Stop, ended, read_inputs};
use drawing::Drawing;
use plant::Plant;
use sheet::Sheet;
use std::process::ExitCode;
use std::{env, io};
use values::Outputs;
use walk::Machine;

// The paths of the drawing and of the sheet.
fn paths(rt: &HostRuntime) -> Result<(String, String), Stop> {
    let mut args = env::args(rt)?;
    let _program = args.next();
    match (args.next(), args.next(), args.next()) {
        (Some(drawing), Some(sheet), None) => Ok((drawing, sheet)),
        _ => Err(Stop::Usage(Program::Play)),
    }
}

fn show_all(
    rt: &HostRuntime,
    drawing: &Drawing,
    sheet: &Sheet,
    playhead: u32,
    values: &Outputs,
) -> io::Result<()> {
    let blocks = drawing.blocks().len();
    let columns = drawing.columns().len();
    let rows = sheet.rows();
    println!(rt; "opened: {blocks} blocks, {columns} columns, {rows} rows")?;
    println!(rt; "playhead {playhead}")?;
    for (number, block) in drawing.blocks().iter().enumerate() {
        let shown = Shown {
            number,
            name: block.name(),
            value: values.get(number),
        };
        println!(rt; "{shown}")?;
    }
    Ok(())
}

fn run(rt: &HostRuntime) -> Result<(), Stop> {
    let (drawing, sheet) = paths(rt)?;
    let Inputs {
        drawing,
        columns,
        types: _types,
        rows,
        cells,
    } = read_inputs(rt, drawing, sheet)?;
    let sheet = Sheet::new(columns, rows, &cells);
    let playhead = sheet.rows().saturating_sub(1);
    let machine = Machine {
        library: &Plant,
        drawing: &drawing,
    };
    let values = machine
        .walk(&sheet, playhead)
        .map_err(|fault| Stop::Open(fault.into()))?;
    Ok(show_all(rt, &drawing, &sheet, playhead, &values)?)
}

fn main(rt: HostRuntime) -> io::Result<ExitCode> {
    ended(&rt, run(&rt))
}
