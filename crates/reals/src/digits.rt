// Reals as eight hexadecimal digits.
ghost use Rattle.std.specs.Prelude.{◌≡◌};
ghost use Rattle.reals.specs.Digits.{pattern_of};

use hexadecimal::digit;

// The pattern that eight digits write; anything else is none. A loop, whose invariant bounds the number.
pub fn read_pattern(word: &[u8]) -> Option<u32>
    ensures { result ≡ pattern_of word.now }
{
    if word.len() != 8 {
        return None;
    }
    let mut n = 0u32;
    for b in word {
        n = n * 16 + u32::from(digit(*b)?);
    }
    Some(n)
}
