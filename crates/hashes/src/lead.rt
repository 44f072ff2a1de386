ghost use Rattle.std.specs.Prelude.{◌≡◌};
ghost use Rattle.hashes.specs.Hashes.{lead};

use crate::hash::Hash;
use std::array;

/// The first eight bytes as a number, the highest first; a shorter string has zero bytes after it. It is the quickest
/// hash where strings differ early; all strings that begin with the same eight bytes have the same number.
#[derive(Clone, Copy, Debug, Default, PartialEq, Eq)]
pub struct Lead;

impl Hash for Lead {
    ghost meaning = { λ _ bs. lead bs };

    fn hash(&mut self, bytes: &[u8]) -> u64 {
        match bytes.first_chunk() {
            Some(front) => whole(*front),
            None => padded(bytes),
        }
    }
}

// Eight bytes at once, which is one read of the memory.
fn whole(front: [u8; 8]) -> u64
    ensures { result ≡ lead front }
{
    u64::from_be_bytes(front)
}

// A string that may end before its eighth byte.
fn padded(bytes: &[u8]) -> u64
    ensures { result ≡ lead bytes.now }
{
    whole(array::from_fn(|i| bytes.get(i).copied().unwrap_or(0)))
}
