// Single blocks of the plant library.
use blocks::BlockLibrary;
use plant::Plant;
use std::io;
use values::{State, Value};

fn show_out(
    rt: &HostRuntime,
    label: &str,
    kind: u8,
    params: &[Value],
    inputs: &[Value],
) -> io::Result<()> {
    let value = Plant.out(kind, params, State::IDLE, inputs);
    println!(rt; "{label}: {value}")
}

// An on_delay over inputs, cycle by cycle.
fn show_on_delay(rt: &HostRuntime, delay: i16, inputs: &[bool]) -> io::Result<()> {
    let params = [Value::Whole(delay)];
    let mut state = Plant.first(15, &params);
    print!(rt; "ONDT {delay}:")?;
    for on in inputs {
        let input = [Value::Binary(*on)];
        let value = Plant.out(15, &params, state, &input);
        print!(rt; " {value}")?;
        state = Plant.next(15, &params, state, &input);
    }
    println!(rt; "")
}

pub fn show_kinds(rt: &HostRuntime) -> io::Result<()> {
    let stages = [Value::Whole(4)];
    let scale = [
        Value::Real(4.0),
        Value::Real(20.0),
        Value::Real(0.0),
        Value::Real(100.0),
    ];
    let most = [Value::Whole(32767), Value::Whole(1)];
    show_out(rt, "ADD 32767 and 1", 11, &[], &most)?;
    show_out(rt, "SEQ 4 at 19", 12, &stages, &[Value::Real(19.0)])?;
    show_out(rt, "SEQ 4 at 20", 12, &stages, &[Value::Real(20.0)])?;
    show_out(rt, "SEQ 4 at 80", 12, &stages, &[Value::Real(80.0)])?;
    show_out(rt, "SEQ 4 at 100", 12, &stages, &[Value::Real(100.0)])?;
    show_out(
        rt,
        "SCALE 4 20 0 100 at 12",
        14,
        &scale,
        &[Value::Real(12.0)],
    )?;
    show_on_delay(rt, 2, &[false, true, true, true])
}
