// Reads blocks with their parameters and inputs, a block to a line, and prints what each shows.
#![tactic(auto)]

mod digits;
mod rows;

use anyhow::anyhow;
use rows::{Row, read_row};
use std::fs;
use values::{Value, pattern};

fn main(rt: HostRuntime) -> anyhow::Result<()> {
    let text = fs::read_to_string(&rt, "reals.in")?;
    for line in text.as_str().lines() {
        let words: Vec<&str> = line.split(' ').collect(rt.alloc())?;
        let Some(row) = read_row(words.as_slice()) else {
            return Err(anyhow!("not a row"));
        };
        // as the table has them: a bare number or a pattern
        match row.shown() {
            Value::Binary(b) => println!(rt; "{b}")?,
            Value::Whole(n) => println!(rt; "{n}")?,
            Value::Real(x) => {
                let bits = pattern(x);
                println!(rt; "{bits:08X}")?
            }
        }
    }
    Ok(())
}
