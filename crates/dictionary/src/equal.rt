ghost use Rattle.std.specs.Prelude.{◌≡◌, ◌+◌, ◌*◌, ◌≤◌, length, Decides};
ghost use Rattle.std.specs.Str.{bytes_eq};
ghost use Rattle.numbers.specs.Puts.{part};

use numbers::read_little;

// The same `width` bytes from `at` on, read as one number.
#[tactic(auto, using(crate::proofs::Parts::little_same))]
fn same_part(x: &[u8], y: &[u8], at: usize, width: usize) -> bool
    requires narrow { width ≤ 8 }
    requires first { at + width ≤ length x.now }
    requires second { at + width ≤ length y.now }
    ensures { Decides result (part x.now at width ≡ part y.now at width) }
{
    read_little(x, at, width) == read_little(y, at, width)
}

// Equal bytes, where the first `width` and the last `width`, which may overlap, are all of them.
#[tactic(auto, using(crate::proofs::Parts::ends_cover))]
fn same_ends(x: &[u8], y: &[u8], width: usize) -> bool
    requires narrow { width ≤ 8 }
    requires long { width ≤ length x.now }
    requires short { length x.now ≤ 2 * width }
    requires same { length x.now ≡ length y.now }
    ensures { Decides result (x.now ≡ y.now) }
{
    same_part(x, y, 0, width) && same_part(x, y, x.len() - width, width)
}

// Equal bytes of any length. Cold: the loop over short names then saves and reloads what a call makes it save beside the call alone.
#[cold]
fn same_slices(x: &[u8], y: &[u8]) -> bool
    ensures { result ≡ bytes_eq x.now y.now }
{
    x == y
}

// Equal bytes. Most names are short, and at 4 to 16 bytes `==` takes some thirty instructions more.
pub(super) fn same_bytes(x: &[u8], y: &[u8]) -> bool
    ensures { result ≡ bytes_eq x.now y.now }
{
    if x.len() != y.len() {
        return false;
    }
    match x.len() {
        4..=8 => same_ends(x, y, 4),
        9..=16 => same_ends(x, y, 8),
        _ => same_slices(x, y),
    }
}
