ghost use Rattle.std.specs.Prelude.{◌≡◌, ◌+◌, ◌*◌, ◌/◌, ◌%◌, ◌^◌, ◌<◌, ◌≤◌, length, replicate, bit_or};
ghost use Rattle.numbers.specs.Little.{little, bytes_of};
ghost use Rattle.numbers.specs.Bits.{bit_at};
ghost use Rattle.numbers.specs.Puts.{put, part, next_place};

// These functions are public for the crates above, which meet what they require; no user calls them.

// The number n with one more byte below it.
fn with_byte(n: u64, byte: u8) -> u64
    ensures { result ≡ bit_or (n * 2 ^ 8 % 2 ^ 64) byte }
{
    n << 8 | u64::from(byte)
}

// The number that up to eight bytes spell, one after another.
fn read_each(bytes: &[u8]) -> u64
    requires { length bytes.now ≤ 8 }
    ensures value { result ≡ little bytes.now }
    ensures small { result < 256 ^ length bytes.now }
{
    bytes.iter().rev().fold(0, |n, b| with_byte(n, *b))
}

/// The number in `width` bytes from `at` on, the lowest first. Four bytes, and eight, are loaded at once.
pub fn read_little(bytes: &[u8], at: usize, width: usize) -> u64
    requires narrow { width ≤ 8 }
    requires within { at + width ≤ length bytes.now }
    ensures value { result ≡ little (part bytes.now at width) }
    ensures small { result < 256 ^ width }
{
    let number = &bytes[at..at + width];
    if let Some(four) = number.as_array::<4>() {
        u64::from(u32::from_le_bytes(*four))
    } else if let Some(eight) = number.as_array::<8>() {
        u64::from_le_bytes(*eight)
    } else {
        read_each(number)
    }
}

/// The `width` lowest bytes of n from `at` on, the lowest first.
#[tactic(auto, using(crate::proofs::Numbers::lowest_bytes))]
pub fn write_little(bytes: &mut [u8], at: usize, width: usize, n: u64)
    requires narrow { width ≤ 8 }
    requires within { at + width ≤ length bytes.old }
    ensures { bytes.new ≡ put at (bytes_of width n) bytes.old }
{
    put_slice(bytes, at, &n.to_le_bytes()[..width]);
}

/// Bit n of the bitmap at `at`.
pub fn bit_at(bytes: &[u8], at: usize, n: usize) -> bool
    requires { at + n / 8 < length bytes.now }
    ensures { result ≡ bit_at bytes.now at n }
{
    (bytes[at + n / 8] >> (n % 8)) % 2 == 1
}

/// Zeros from `at` on.
pub fn put_zeros(bytes: &mut [u8], at: usize, n: usize)
    requires { at + n ≤ length bytes.old }
    ensures { bytes.new ≡ put at (replicate n 0) bytes.old }
{
    bytes[at..at + n].fill(0);
}

/// A whole slice, written from `at` on.
pub fn put_slice(bytes: &mut [u8], at: usize, source: &[u8])
    requires { at + length source.now ≤ length bytes.old }
    ensures { bytes.new ≡ put at source.now bytes.old }
{
    bytes[at..at + source.len()].copy_from_slice(source);
}

/// A part of the memory, copied to a place above it.
pub fn copy_up<T: Copy>(memory: &mut [T], from: usize, n: usize, at: usize)
    requires above { from + n ≤ at }
    requires within { at + n ≤ length memory.old }
    ensures { memory.new ≡ put at (part memory.old from n) memory.old }
{
    memory.copy_within(from..from + n, at);
}

/// The next place at or above m where a buffer may start.
pub fn next_place(m: u64) -> u64
    requires { m < 2 ^ 63 }
    ensures { result ≡ next_place m }
{
    m.next_multiple_of(8)
}
