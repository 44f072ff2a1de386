ghost use Rattle.std.specs.Prelude.{◌≡◌};
ghost use Rattle.hashes.specs.Hashes.{fnv1a, fnv_step};

use crate::hash::Hash;

const BASIS: u64 = 14695981039346656037;

const PRIME: u64 = 1099511628211;

/// FNV-1a with 64 bits. Every byte of a string counts, and short strings are quick.
#[derive(Clone, Copy, Debug, Default, PartialEq, Eq)]
pub struct Fnv1a;

impl Hash for Fnv1a {
    ghost meaning = { λ _ bs. fnv1a bs };

    fn hash(&mut self, bytes: &[u8]) -> u64 {
        bytes.iter().fold(BASIS, |h, b| mixed(h, *b))
    }
}

// A step of the hash: one more byte.
fn mixed(h: u64, byte: u8) -> u64
    ensures { result ≡ fnv_step h byte }
{
    (h ^ u64::from(byte)).wrapping_mul(PRIME)
}
