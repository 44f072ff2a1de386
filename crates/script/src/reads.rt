ghost use Rattle.std.specs.Prelude.{◌≡◌, ℕ, ◌+◌, ◌*◌, IfSome};
ghost use Rattle.std.specs.List.{between};
ghost use Rattle.numbers.specs.Bits.{bit_at};
ghost use Rattle.numbers.specs.Puts.{part};
ghost use Rattle.format.specs.Meaning.{is_null, number};

use numbers::{bit_at, read_little};
use records::Record;

/// A record with the bytes that its places count in. Its methods ask nothing of the memory: where it does not hold what
/// is asked for, the answer is None. The reads of cells, in `columns`, ask that it does; of nested rows nobody has proved that.
#[derive(Clone, Copy)]
pub struct Node<'m> {
    pub record: Record,
    pub bytes: &'m [u8],
}

// n bytes at `place`.
fn part_at(bytes: &[u8], place: u64, n: u64) -> Option<&[u8]>
    ensures { IfSome result (λ found. found.now ≡ part bytes.now place n) }
{
    let end = place.checked_add(n)?;
    bytes.get(place as usize..end as usize)
}

// Bit j of the bitmap at `place`.
fn find_bit(bytes: &[u8], place: u64, j: u64) -> Option<bool>
    ensures { IfSome result (λ b. b ≡ bit_at bytes.now place j) }
{
    let byte = place.checked_add(j / 8)?;
    if byte < bytes.len() as u64 {
        Some(bit_at(bytes, place as usize, j as usize))
    } else {
        None
    }
}

impl<'m> Node<'m> {
    pub fn is_null(self, j: u64) -> Option<bool>
        ensures { IfSome result (λ b. b ≡ is_null self.entry.bytes.now self.entry.record j) }
    {
        if self.record.nulls == 1 {
            Some(!find_bit(self.bytes, self.record.v, j)?)
        } else {
            Some(false)
        }
    }

    /// Bit j of the first buffer.
    pub fn bit(self, j: u64) -> Option<bool>
        ensures { IfSome result (λ b. b ≡ bit_at self.entry.bytes.now self.entry.record.a j) }
    {
        find_bit(self.bytes, self.record.a, j)
    }

    /// Value j of the first buffer.
    pub fn value(self, j: u64) -> Option<&'m [u8]>
        ensures { let r = self.entry.record in IfSome result (λ v. v.now ≡ part self.entry.bytes.now (r.a + j * r.width) r.width) }
    {
        let width = self.record.width;
        part_at(
            self.bytes,
            self.record.a.checked_add(j.checked_mul(width)?)?,
            width,
        )
    }

    /// The same value as a number.
    pub fn number(self, j: u64) -> Option<u64>
        ensures { IfSome result (λ n. n ≡ number self.entry.bytes.now self.entry.record j) }
    {
        let value = self.value(j)?;
        if value.len() <= 8 {
            Some(read_little(value, 0, value.len()))
        } else {
            None
        }
    }

    /// Offset j and the next.
    pub fn offsets(self, j: u64) -> Option<(u64, u64)>
        ensures { let at = number self.entry.bytes.now self.entry.record in IfSome result (λ p. (p.0 ≡ at j) × (p.1 ≡ at (j + 1))) }
    {
        Some((self.number(j)?, self.number(j.checked_add(1)?)?))
    }

    /// The bytes between offset j and the next.
    pub fn text(self, j: u64) -> Option<&'m [u8]>
        ensures { let at : ℕ → ℕ = λ k. self.entry.record.b + number self.entry.bytes.now self.entry.record k in
            IfSome result (λ t. t.now ≡ between (at j) (at (j + 1)) self.entry.bytes.now) }
    {
        let (first, end) = self.offsets(j)?;
        part_at(
            self.bytes,
            self.record.b.checked_add(first)?,
            end.checked_sub(first)?,
        )
    }

    /// The first run whose end is above j. The run ends rise, so each turn halves what is left. They lie in bytes and may be missing,
    /// so the search of a slice does not serve.
    pub fn run(self, j: u64) -> Option<u64> {
        let mut low = 0u64;
        let mut high = self.record.count;
        while low < high {
            let middle = low.midpoint(high);
            if self.number(middle)? > j {
                high = middle;
            } else {
                low = middle + 1;
            }
        }
        Some(low)
    }
}
