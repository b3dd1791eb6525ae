// The drawing and the sheet that a program is given.
ghost use Rattle.std.specs.Prelude.{◌≡◌, ℕ, ◌<◌, ◌⊎◌, List, length, Err, IfOk, MatchResult};
ghost use Rattle.faults.specs.declared.fault.Fault.TheVariants.{SheetSize};
ghost use Rattle.plant.specs.Plant.{plant};
ghost use Rattle.packed.specs.Load.{Loads};
ghost use Rattle.sheet.specs.Held.{types_of};
ghost use Rattle.sheet.specs.Memory.{Passes, Tested};

use crate::stop::{Stop, unreadable};
use drawing::Drawing;
use faults::Fault;
use packed::load;
use plant::Plant;
use sheet::{Columns, Sheet};
use std::fs;
use text::{SheetFile, read_sheet};
use values::{Cell, ValueType};

// A drawing that was loaded, and the columns, the number of rows and the cells of a sheet, which pass the sheet's test.
#[derive(Drop)]
pub struct Inputs {
    pub drawing: Drawing,
    pub columns: Columns,
    pub types: Vec<ValueType>,
    pub rows: u32,
    pub cells: Vec<Cell>,
    ghost loaded: { ∥ ((bytes : List ℕ) × Loads plant bytes drawing) ∥₁ },
    ghost typed: { types_of columns ≡ types.items },
    ghost passes: { ∥ Passes types.items rows cells.items ∥₁ },
}

fn load_file(rt: &HostRuntime, path: String) -> Result<Drawing, Stop>
    ensures { IfOk result (λ drawing. (bytes : List ℕ) × Loads plant bytes drawing) }
{
    let file = fs::read(rt, path.as_str()).map_err(|e| unreadable(path, e))?;
    Ok(load(rt.alloc(), &Plant, &file)?)
}

fn read_file(rt: &HostRuntime, path: String) -> Result<SheetFile, Stop> {
    let text = fs::read_to_string(rt, path.as_str()).map_err(|e| unreadable(path, e))?;
    Ok(read_sheet(rt.alloc(), text.as_str())?)
}

// The columns of a file that a sheet can be made of, or the first misfit.
fn tested(types: &[ValueType], rows: u32, cells: &[Cell]) -> Result<Columns, Fault>
    ensures { MatchResult result (λ columns. (types_of columns ≡ types.now) × Passes types.now rows cells.now) (λ fault. ((8 < length types.now) × (fault ≡ SheetSize)) ⊎ Tested types.now rows cells.now (Err fault)) }
{
    let columns = Columns::new(types)?;
    Sheet::test(columns, rows, cells)?;
    Ok(columns)
}

// Reads both files. Far more rows than a sheet can have stay too many.
pub fn read_inputs(rt: &HostRuntime, drawing: String, sheet: String) -> Result<Inputs, Stop> {
    let drawing = load_file(rt, drawing)?;
    let SheetFile { types, cells, rows } = read_file(rt, sheet)?;
    let rows = u32::try_from(rows).unwrap_or(u32::MAX);
    let columns = tested(&types, rows, &cells).map_err(|fault| Stop::Sheet(fault.into()))?;
    Ok(Inputs {
        drawing,
        columns,
        types,
        rows,
        cells,
    })
}
