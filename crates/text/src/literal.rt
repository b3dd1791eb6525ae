// Values as they are written in text.
ghost use Rattle.std.specs.Prelude.{◌≡◌, IfSome};
ghost use Rattle.values.specs.Values.{type_of};

use values::{Value, ValueType};

fn binary_word(text: &str) -> Option<bool> {
    match text {
        "off" | "false" => Some(false),
        "on" | "true" => Some(true),
        _ => None,
    }
}

fn binary_digit(text: &str) -> Option<bool> {
    match text {
        "0" => Some(false),
        "1" => Some(true),
        _ => None,
    }
}

// A literal of a type; for a binary place 0 and 1 count as off and on.
pub fn literal_of(text: &str, t: ValueType) -> Option<Value>
    ensures { IfSome result (λ v. type_of v ≡ t) }
{
    match t {
        ValueType::Binary => binary_digit(text)
            .or_else(|| binary_word(text))
            .map(|b| Value::Binary(b)),
        ValueType::Whole => text.parse::<i16>().ok().map(|n| Value::Whole(n)),
        ValueType::Real => text.parse::<f32>().ok().map(|x| Value::Real(x)),
    }
}

// A literal of any type: a binary word, else a whole, else a real.
pub fn loose_literal(text: &str) -> Option<Value> {
    binary_word(text)
        .map(|b| Value::Binary(b))
        .or_else(|| literal_of(text, ValueType::Whole))
        .or_else(|| literal_of(text, ValueType::Real))
}

// A literal for a place of a type. One of another type is handed on with the type it has, so that it is
// the engine that refuses it.
pub fn literal_for(text: &str, t: ValueType) -> Option<Value> {
    literal_of(text, t).or_else(|| loose_literal(text))
}
