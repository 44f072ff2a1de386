ghost use Rattle.std.specs.Prelude.{◌≡◌, ℕ, ◌+◌, ◌^◌, ◌<◌, ◌≤◌, Bool, true, false, length, Some, Option};
ghost use Rattle.numbers.specs.Back.{reads_back};
ghost use Rattle.numbers.specs.Little.{bytes_of, largest, reading, as_index, value_of};
ghost use Rattle.numbers.specs.Puts.{part};
ghost use Rattle.std.proofs.Common.{rules};

use super::memory::read_little;

/// An index kind: the type of a dictionary's keys, of offsets or of run ends, by its width in bytes and its sign. It is public for the crates
/// above, which meet what `index` and `read` require; no user calls them.
pub trait Index {
    ghost WIDTH: { ℕ };

    /// How many bytes an index takes.
    const WIDTH: usize;

    ghost SIGNED: { Bool };

    /// Whether it has a sign.
    const SIGNED: bool;

    /// The largest number of the kind.
    fn most() -> u64
        ensures { result ≡ largest SIGNED WIDTH }
    {
        largest_of(Self::SIGNED, Self::WIDTH)
    }

    /// The number with these low bytes, read as one of the kind; None where it is negative.
    fn index(bits: u64) -> Option<u64>
        requires { bits < 256 ^ WIDTH }
        ensures { result ≡ as_index (value_of SIGNED WIDTH bits) };

    /// The index that the bytes at `at` spell; None where their number is negative.
    fn read(bytes: &[u8], at: usize) -> Option<u64>
        requires { at + WIDTH ≤ length bytes.now }
        ensures { result ≡ reading SIGNED WIDTH (part bytes.now at WIDTH) }
    {
        Self::index(read_little(bytes, at, Self::WIDTH))
    }

    ghost narrow: { (1 ≤ WIDTH) × (WIDTH ≤ 8) };

    // a number up to the largest comes back unchanged from its bytes
    ghost back: { (n : ℕ) → n ≤ largest SIGNED WIDTH → reading SIGNED WIDTH (bytes_of WIDTH n) ≡ Some n } = { reads_back SIGNED WIDTH narrow };
}

/// The largest number by sign and width. It is public for the crates above, which meet what it requires.
#[tactic(auto, using(crate::proofs::Numbers::largest_is))]
pub fn largest_of(signed: bool, width: usize) -> u64
    requires low { 1 ≤ width }
    requires high { width ≤ 8 }
    ensures { result ≡ largest signed width }
{
    u64::MAX >> (64 + u32::from(signed) - 8 * width as u32)
}

// Each kind gives its constants, and reads as its own type. The gate takes no impls by a macro of the repository's own.
impl Index for i8 {
    const WIDTH: usize = 1;

    const SIGNED: bool = true;

    ghost WIDTH = { 1 };

    ghost SIGNED = { true };

    ghost narrow = { Prim.search rules };

    fn index(bits: u64) -> Option<u64> {
        ((bits as u8).cast_signed() >= 0).then_some(bits)
    }
}

impl Index for i16 {
    const WIDTH: usize = 2;

    const SIGNED: bool = true;

    ghost WIDTH = { 2 };

    ghost SIGNED = { true };

    ghost narrow = { Prim.search rules };

    fn index(bits: u64) -> Option<u64> {
        ((bits as u16).cast_signed() >= 0).then_some(bits)
    }
}

impl Index for i32 {
    const WIDTH: usize = 4;

    const SIGNED: bool = true;

    ghost WIDTH = { 4 };

    ghost SIGNED = { true };

    ghost narrow = { Prim.search rules };

    fn index(bits: u64) -> Option<u64> {
        ((bits as u32).cast_signed() >= 0).then_some(bits)
    }
}

impl Index for i64 {
    const WIDTH: usize = 8;

    const SIGNED: bool = true;

    ghost WIDTH = { 8 };

    ghost SIGNED = { true };

    ghost narrow = { Prim.search rules };

    fn index(bits: u64) -> Option<u64> {
        (bits.cast_signed() >= 0).then_some(bits)
    }
}

impl Index for u8 {
    const WIDTH: usize = 1;

    const SIGNED: bool = false;

    ghost WIDTH = { 1 };

    ghost SIGNED = { false };

    ghost narrow = { Prim.search rules };

    fn index(bits: u64) -> Option<u64> {
        Some(bits)
    }
}

impl Index for u16 {
    const WIDTH: usize = 2;

    const SIGNED: bool = false;

    ghost WIDTH = { 2 };

    ghost SIGNED = { false };

    ghost narrow = { Prim.search rules };

    fn index(bits: u64) -> Option<u64> {
        Some(bits)
    }
}

impl Index for u32 {
    const WIDTH: usize = 4;

    const SIGNED: bool = false;

    ghost WIDTH = { 4 };

    ghost SIGNED = { false };

    ghost narrow = { Prim.search rules };

    fn index(bits: u64) -> Option<u64> {
        Some(bits)
    }
}

impl Index for u64 {
    const WIDTH: usize = 8;

    const SIGNED: bool = false;

    ghost WIDTH = { 8 };

    ghost SIGNED = { false };

    ghost narrow = { Prim.search rules };

    fn index(bits: u64) -> Option<u64> {
        Some(bits)
    }
}
