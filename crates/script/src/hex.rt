ghost use Rattle.std.specs.Prelude.{◌≡◌, ◌<◌, IfSome, Some, None};
ghost use Rattle.script.specs.Hex.{digit_of, joined, value_of};

use crate::mistake::Mistake;
use std::alloc::AllocError;

// The digit of a number below 16.
fn digit(n: u8) -> char
    requires { n < 16 }
    ensures value { result ≡ digit_of n }
    ensures back { value_of result ≡ Some n }
{
    if n <= 9 {
        char::from(b'0' + n)
    } else {
        char::from(b'a' + (n - 10))
    }
}

// Own digits: those of the kit's crate `hex` fill a slice or a new value and append to no text, and these have contracts.

/// `x`, and two digits for each byte.
pub fn show_hex(out: &mut String, bytes: &[u8]) -> Result<(), AllocError> {
    out.push('x')?;
    for b in bytes {
        out.push(digit(*b / 16))?;
        out.push(digit(*b % 16))?;
    }
    Ok(())
}

// What a digit stands for, in either case of its letters.
fn value(digit: u8) -> Option<u8>
    ensures value { result ≡ value_of digit }
    ensures small { IfSome result (λ n. n < 16) }
{
    match digit {
        b'0'..=b'9' => Some(digit - b'0'),
        b'a'..=b'f' => Some(digit - b'a' + 10),
        b'A'..=b'F' => Some(digit - b'A' + 10),
        _ => None,
    }
}

fn byte(high: u8, low: u8) -> Option<u8>
    ensures { result ≡ joined (value_of high) (value_of low) }
{
    let h = value(high)?;
    let l = value(low)?;
    Some(h * 16 + l)
}

/// The bytes that a word of hex digits spells, after those that `bytes` holds.
pub fn read_hex(bytes: &mut Vec<u8>, word: &str) -> Result<(), Mistake> {
    for pair in word.as_bytes().chunks(2) {
        let [high, low] = pair else {
            return Err(Mistake::NoHex);
        };
        bytes.push(byte(*high, *low).ok_or(Mistake::NoHex)?)?;
    }
    Ok(())
}
