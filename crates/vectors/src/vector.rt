use crate::failure::{Failure, Mistake};
use std::alloc::Global;

/// A string, and the number that its hash is known to be.
#[derive(Debug, Drop)]
pub struct Vector {
    pub bytes: Vec<u8>,
    pub number: u64,
}

fn is_digit(b: u8) -> bool {
    matches!(b, b'0'..=b'9' | b'a'..=b'f')
}

// The bytes that hex digits spell, whose letters are small; `-` spells none.
fn parse_bytes(heap: Global, word: &str) -> Result<Vec<u8>, Mistake> {
    if word == "-" {
        return Ok(Vec::new(heap));
    }
    // All digits are tested first, since `decode` takes memory before it looks at any, and takes large letters too.
    if word.is_empty() || !word.bytes().all(is_digit) {
        return Err(Mistake::Bytes);
    }
    Ok(hex::decode(heap, word)?)
}

fn parse(heap: Global, line: &str) -> Result<Vector, Mistake> {
    let (word, number) = line.split_once(' ').ok_or(Mistake::Words)?;
    Ok(Vector {
        bytes: parse_bytes(heap, word)?,
        number: u64::from_str_radix(number, 16).map_err(|_| Mistake::Number)?,
    })
}

/// The vectors of a file, one to a line; `#` begins a comment.
pub fn parse_all(heap: Global, text: &str) -> Result<Vec<Vector>, Failure> {
    let mut vectors = Vec::new(heap);
    for (number, line) in (1usize..).zip(text.lines()) {
        if !line.starts_with('#') {
            vectors.push(parse(heap, line).map_err(|mistake| Failure::Line { number, mistake })?)?;
        }
    }
    if vectors.is_empty() {
        Err(Failure::NoVectors)
    } else {
        Ok(vectors)
    }
}
