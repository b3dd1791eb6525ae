// A block with its parameters and its input.
ghost use Rattle.std.specs.Prelude.{◌≡◌};
ghost use Rattle.reals.specs.Digits.{pattern_of};
ghost use Rattle.reals.specs.Rows.{real_of, shown_of, limit_of, ReadsSequence, scale_of};

use crate::digits::read_pattern;
use blocks::BlockLibrary;
use plant::Plant;
use values::{State, Value, real_of_pattern};

// Reals as their patterns.
#[derive(Clone, Copy)]
pub enum Row {
    Limit {
        low: u32,
        high: u32,
        x: u32,
    },
    Sequence {
        stages: i16,
        x: u32,
    },
    Scale {
        a: u32,
        b: u32,
        c: u32,
        d: u32,
        x: u32,
    },
}

fn real(bits: u32) -> Value
    ensures { result ≡ real_of bits }
{
    Value::Real(real_of_pattern(bits))
}

impl Row {
    // What the plant's block shows.
    pub fn shown(self) -> Value
        ensures { result ≡ shown_of self }
    {
        match self {
            Row::Limit { low, high, x } => {
                Plant.out(10, &[real(low), real(high)], State::IDLE, &[real(x)])
            }
            Row::Sequence { stages, x } => {
                Plant.out(12, &[Value::Whole(stages)], State::IDLE, &[real(x)])
            }
            Row::Scale { a, b, c, d, x } => Plant.out(
                14,
                &[real(a), real(b), real(c), real(d)],
                State::IDLE,
                &[real(x)],
            ),
        }
    }
}

fn limit_row(low: &str, high: &str, x: &str) -> Option<Row>
    ensures { result ≡ limit_of (pattern_of low.now) (pattern_of high.now) (pattern_of x.now) }
{
    let low = read_pattern(low.as_bytes())?;
    let high = read_pattern(high.as_bytes())?;
    let x = read_pattern(x.as_bytes())?;
    Some(Row::Limit { low, high, x })
}

// The whole number as `parse` reads it.
fn sequence_row(stages: &str, x: &str) -> Option<Row>
    ensures { ReadsSequence stages.now x.now result }
{
    let stages = stages.parse::<i16>().ok()?;
    let x = read_pattern(x.as_bytes())?;
    Some(Row::Sequence { stages, x })
}

fn scale_row(a: &str, b: &str, c: &str, d: &str, x: &str) -> Option<Row>
    ensures { result ≡ scale_of (pattern_of a.now) (pattern_of b.now) (pattern_of c.now) (pattern_of d.now) (pattern_of x.now) }
{
    let a = read_pattern(a.as_bytes())?;
    let b = read_pattern(b.as_bytes())?;
    let c = read_pattern(c.as_bytes())?;
    let d = read_pattern(d.as_bytes())?;
    let x = read_pattern(x.as_bytes())?;
    Some(Row::Scale { a, b, c, d, x })
}

// A row by the words of its line.
pub fn read_row(words: &[&str]) -> Option<Row> {
    match words {
        ["limit", low, high, x] => limit_row(low, high, x),
        ["seq", stages, x] => sequence_row(stages, x),
        ["scale", a, b, c, d, x] => scale_row(a, b, c, d, x),
        _ => None,
    }
}
