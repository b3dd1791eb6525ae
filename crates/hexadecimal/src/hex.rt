// Digits, and bytes of two digits each.
ghost use Rattle.std.specs.Prelude.{◌≡◌, IfOk};
ghost use Rattle.std.specs.Option.{option_map};
ghost use Rattle.hexadecimal.specs.Digits.{digit_of, byte_of, bytes_of};

use std::alloc::{AllocError, Global};

// The value of a digit, in capitals alone, where `to_digit` reads small letters too.
pub fn digit(b: u8) -> Option<u8>
    ensures { result ≡ digit_of b }
{
    match b {
        b'0'..=b'9' => Some(b - b'0'),
        b'A'..=b'F' => Some(b - b'A' + 10),
        _ => None,
    }
}

// The byte of two digits.
fn byte(high: u8, low: u8) -> Option<u8>
    ensures { result ≡ byte_of high low }
{
    match (digit(high), digit(low)) {
        (Some(h), Some(l)) => Some(h * 16 + l),
        _ => None,
    }
}

// The bytes that pairs of digits stand for, in capitals as above; none where there are other characters, or an odd number of them.
pub fn bytes_of(heap: Global, digits: &[u8]) -> Result<Option<Vec<u8>>, AllocError>
    ensures { IfOk result (λ o. option_map (λ v. v.items) o ≡ bytes_of digits.now) }
{
    let mut bytes = Vec::new(heap);
    let mut rest = digits;
    while let [high, low, others @ ..] = rest {
        let Some(b) = byte(*high, *low) else {
            return Ok(None);
        };
        bytes.push(b)?;
        rest = others;
    }
    Ok(rest.is_empty().then_some(bytes))
}
