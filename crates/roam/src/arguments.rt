// The program's arguments.
use cli::{Program, Stop};
use std::env;

#[derive(Clone, Copy)]
pub enum StoreChoice {
    Nothing,
    One,
    Table(usize),
}

#[derive(Drop)]
pub struct Arguments {
    pub drawing: String,
    pub sheet: String,
    pub store: StoreChoice,
}

fn store_named(word: &str) -> Option<StoreChoice> {
    match word {
        "none" => Some(StoreChoice::Nothing),
        "one" => Some(StoreChoice::One),
        _ => {
            let rows = word.strip_prefix("table:")?.parse::<usize>().ok()?;
            (rows <= 4096).then_some(StoreChoice::Table(rows))
        }
    }
}

// Two paths, and a store; where none is named, a table that no sheet can fill.
pub fn read_arguments(rt: &HostRuntime) -> Result<Arguments, Stop> {
    let mut args = env::args(rt)?;
    let _program = args.next();
    let (Some(drawing), Some(sheet)) = (args.next(), args.next()) else {
        return Err(Stop::Usage(Program::Roam));
    };
    let store = match (args.next(), args.next()) {
        (None, None) => Some(StoreChoice::Table(128)),
        (Some(word), None) => store_named(word.as_str()),
        _ => None,
    };
    Ok(Arguments {
        drawing,
        sheet,
        store: store.ok_or(Stop::Usage(Program::Roam))?,
    })
}
