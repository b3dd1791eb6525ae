// Writes the parts of a file.
ghost use Rattle.std.specs.Prelude.{◌≡◌, ℕ, ◌+◌, ◌*◌, ◌≤◌, List, ◌++◌, length};
ghost use Rattle.draft.specs.Drafts.{block_means};
ghost use Rattle.draft.specs.File.{type_format, source_format, param_format, name_byte, block_format};
ghost use Rattle.packed.specs.Appends.{bits_each};

use crate::bitfield::BitWriter;
use draft::{Block, Source};
use values::{Value, ValueType, pattern};

// What is written bit after bit.
pub(crate) trait Field {
    // the bits of a value, by how many stand before it
    ghost bits: { ℕ → Self → List ℕ };

    // no value has more
    ghost most: { ℕ };

    fn write(&self, file: &mut BitWriter)
        requires { length file.old + most ≤ 16448 }
        ensures value { file.new ≡ file.old ++ bits (length file.old) self.now }
        ensures near { length file.new ≤ length file.old + most };
}

// Writes the values, one after the other.
pub(crate) fn write_all<T: Field>(file: &mut BitWriter, values: &[T])
    requires { length file.old + T.most * length values.now ≤ 16448 }
    ensures value { file.new ≡ file.old ++ bits_each T.bits (length file.old) values.now }
    ensures near { length file.new ≤ length file.old + T.most * length values.now }
{
    for value in values {
        value.write(file);
    }
}

// The type of a column, or of a parameter.
impl Field for ValueType {
    ghost bits = { type_format.bits };

    ghost most = { 2 };

    fn write(&self, file: &mut BitWriter) {
        let tag = match self {
            ValueType::Binary => 1,
            ValueType::Whole => 2,
            ValueType::Real => 3,
        };
        file.field(2, tag);
    }
}

impl Field for Source {
    ghost bits = { source_format.bits };

    ghost most = { 8 };

    fn write(&self, file: &mut BitWriter) {
        let (is_block, number) = match *self {
            Source::Column(n) => (0, u32::from(n)),
            Source::Block(n) => (1, u32::from(n)),
        };
        file.field(1, is_block);
        file.field(7, number);
    }
}

// A parameter: its type, and a real as its pattern.
impl Field for Value {
    ghost bits = { param_format.bits };

    ghost most = { 34 };

    fn write(&self, file: &mut BitWriter) {
        self.value_type().write(file);
        match *self {
            Value::Binary(b) => file.field(1, u32::from(b)),
            Value::Whole(n) => file.field(16, u32::from(n.cast_unsigned())),
            Value::Real(x) => file.field(32, pattern(x)),
        }
    }
}

// A byte of a name.
impl Field for u8 {
    ghost bits = { name_byte.bits };

    ghost most = { 8 };

    fn write(&self, file: &mut BitWriter) {
        file.field(8, u32::from(*self));
    }
}

// A block: kind, numbers of sources and parameters, length of the name; those; zeros to a byte; the name.
impl Field for Block {
    ghost bits = { λ p b. block_format.bits p (block_means b) };

    ghost most = { 256 };

    fn write(&self, file: &mut BitWriter) {
        let sources = self.sources();
        let params = self.params();
        let name = self.name();
        file.field(6, u32::from(self.kind()));
        file.field(3, sources.len() as u32);
        file.field(3, params.len() as u32);
        file.field(4, name.len() as u32);
        write_all(file, sources);
        write_all(file, params);
        file.padding();
        write_all(file, name);
    }
}
