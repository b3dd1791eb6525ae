// The types of columns: made, read and compared.
ghost use Rattle.std.specs.Prelude.{◌≡◌, [], length, Decides};
ghost use Rattle.std.specs.List.{slice_get};
ghost use Rattle.sheet.specs.Cells.{type_at};
ghost use Rattle.sheet.specs.Held.{types_of};
ghost use Rattle.sheet.specs.Calls.{MadeColumns};

use super::Columns;
use faults::Fault;
use values::ValueType;

impl Columns {
    pub fn new(types: &[ValueType]) -> Result<Columns, Fault>
        ensures { MadeColumns types.now result }
    {
        let len = types.len();
        if len > 8 {
            return Err(Fault::SheetSize);
        }
        let mut all = [ValueType::Binary; 8];
        all[..len].copy_from_slice(types);
        Ok(Columns { types: all, len })
    }

    pub(crate) fn none() -> Columns
        ensures { types_of result ≡ [] }
    {
        Columns {
            types: [ValueType::Binary; 8],
            len: 0,
        }
    }

    fn as_slice(&self) -> &[ValueType]
        ensures { result.now ≡ types_of self.now }
    {
        &self.types[..self.len]
    }

    pub fn len(&self) -> usize
        ensures { result ≡ length (types_of self.now) }
    {
        self.len
    }

    pub fn get(&self, column: u32) -> Option<ValueType>
        ensures { result ≡ slice_get (types_of self.now) column }
    {
        self.as_slice().get(column as usize).copied()
    }

    // Whether these are the types of the columns.
    #[tactic(auto, using(crate::proofs::Matching::types_are))]
    pub fn same(&self, types: &[ValueType]) -> bool
        ensures { Decides result (types_of self.now ≡ types.now) }
    {
        self.as_slice() == types
    }

    // The type of a column, and binary where there is none.
    pub(crate) fn type_at(&self, column: u32) -> ValueType
        ensures { result ≡ type_at (types_of self.now) column }
    {
        self.get(column).unwrap_or(ValueType::Binary)
    }
}
