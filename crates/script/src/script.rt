// Scripts: the marks to put, and then the calls to make, one to a line.
use faults::Failure;
use ordered::Name;
use runs::Call;
use std::alloc::Global;
use std::fmt;
use std::str::FromStr;
use text::{AtLine, literal_for, loose_literal};
use values::{Value, ValueType};

#[derive(Clone, Copy)]
pub struct Mark {
    pub name: Name,
    pub cycle: u32,
}

// What a script asks for; `words` has each call's words, joined by single spaces. They lie beside the calls, since a run
// takes its calls as a slice, and with calls among the words it would hold each call twice.
#[derive(Drop)]
pub struct Script {
    pub marks: Vec<Mark>,
    pub calls: Vec<Call>,
    pub words: Vec<String>,
}

#[derive(Clone, Copy, PartialEq, Eq, Debug)]
pub enum ScriptFault {
    UnknownCall,
    WordCount,
    BadName,
    BadNumber,
    NoValue,
    LateMark,
}

impl fmt::Display for ScriptFault {
    fn fmt<W: fmt::Write>(&self, f: &mut fmt::Formatter<W>) -> fmt::Result {
        match *self {
            ScriptFault::UnknownCall => write!(f, "no such call"),
            ScriptFault::WordCount => write!(f, "a word too many or too few"),
            ScriptFault::BadName => write!(f, "a name has 1 to 8 bytes"),
            ScriptFault::BadNumber => write!(f, "a number is missing or too large"),
            ScriptFault::NoValue => write!(f, "the last word is no value"),
            ScriptFault::LateMark => write!(f, "a mark after the first call"),
        }
    }
}

// Why a script is not read.
pub type ScriptError = Failure<AtLine<ScriptFault>>;

// What a line asks for.
enum Asked {
    Mark(Mark),
    Call(Call),
}

fn name_of(word: &str) -> Result<Name, ScriptFault> {
    let given = word.as_bytes();
    if given.len() > 8 {
        return Err(ScriptFault::BadName);
    }
    let mut bytes = [0u8; 8];
    bytes[..given.len()].copy_from_slice(given);
    Ok(Name { bytes })
}

fn number<T: FromStr>(word: &str) -> Result<T, ScriptFault>
where
    T::Err: Drop,
{
    word.parse::<T>().map_err(|_| ScriptFault::BadNumber)
}

fn cycle_of(word: &str) -> Result<u32, ScriptFault> {
    Ok(u32::from(number::<u16>(word)?))
}

// A block or a column.
fn part_of(word: &str) -> Result<u32, ScriptFault> {
    Ok(u32::from(number::<u8>(word)?))
}

// A value for a column, read as the column's type first.
fn value_of(columns: &[ValueType], column: u32, word: &str) -> Result<Value, ScriptFault> {
    let read = match columns.get(column as usize) {
        Some(t) => literal_for(word, *t),
        None => loose_literal(word),
    };
    read.ok_or(ScriptFault::NoValue)
}

// A confirm or a drop names a place of the hand, 0 the oldest slip. The hand of a run that begins empty never has more
// than one slip, so that the newest is the first.
fn read_words(columns: &[ValueType], begun: bool, words: &[&str]) -> Result<Asked, ScriptFault> {
    let call = match words {
        ["mark", _, _] if begun => return Err(ScriptFault::LateMark),
        ["mark", name, cycle] => {
            let name = name_of(name)?;
            let cycle = cycle_of(cycle)?;
            return Ok(Asked::Mark(Mark { name, cycle }));
        }
        ["step"] => Call::Step,
        ["jump", cycle] => Call::Jump(cycle_of(cycle)?),
        ["goto", name] => Call::Goto(name_of(name)?),
        ["write", cycle, column, value] => {
            let cycle = cycle_of(cycle)?;
            let column = part_of(column)?;
            Call::Write(cycle, column, value_of(columns, column, value)?)
        }
        ["back"] => Call::TakeBack,
        ["begin"] => Call::Begin,
        ["confirm"] => Call::Confirm(0),
        ["confirm", place] => Call::Confirm(number(place)?),
        ["drop"] => Call::Drop(0),
        ["drop", place] => Call::Drop(number(place)?),
        ["show", block] => Call::Show(part_of(block)?),
        ["tally", column] => Call::Tally(part_of(column)?),
        [
            "mark"
            | "step"
            | "jump"
            | "goto"
            | "write"
            | "back"
            | "begin"
            | "confirm"
            | "drop"
            | "show"
            | "tally",
            ..
        ] => return Err(ScriptFault::WordCount),
        _ => return Err(ScriptFault::UnknownCall),
    };
    Ok(Asked::Call(call))
}

// Adds what a line asks for.
fn read_line(
    heap: Global,
    columns: &[ValueType],
    script: &mut Script,
    line: usize,
    text: &str,
) -> Result<(), ScriptError> {
    let words: Vec<&str> = text.split(' ').filter(|w| !w.is_empty()).collect(heap)?;
    if words.is_empty() {
        return Ok(());
    }
    let begun = !script.calls.is_empty();
    match read_words(columns, begun, &words).map_err(|fault| AtLine { line, fault })? {
        Asked::Mark(mark) => Ok(script.marks.push(mark)?),
        Asked::Call(call) => {
            script.words.push(words.join(heap, " ")?)?;
            Ok(script.calls.push(call)?)
        }
    }
}

// Reads a whole script, for a sheet of these columns.
pub fn read_script(heap: Global, text: &str, columns: &[ValueType]) -> Result<Script, ScriptError> {
    let mut script = Script {
        marks: Vec::new(heap),
        calls: Vec::new(heap),
        words: Vec::new(heap),
    };
    for (i, line) in text.lines().enumerate() {
        if !line.starts_with('#') {
            read_line(heap, columns, &mut script, i.saturating_add(1), line)?;
        }
    }
    Ok(script)
}
