ghost use Rattle.std.specs.Prelude.{◌≡◌, ◌+◌, ◌-◌, ◌*◌, ◌/◌, ◌<◌, ◌≤◌, true, false, [], ◌∷◌, length, ◌==◌, nat_le, IfSome, IfNone};
ghost use Rattle.format.specs.Meaning.{is_null, ends_of};
ghost use Rattle.format.specs.Rules.{both, one_of, end_of, room, validity_ok};
ghost use Rattle.column_check.specs.Tests.{in_turn, offsets_ok, keys_ok, rising, single, flat_tests, bit_tests, bytes_tests, dictionary_tests, list_tests, run_tests};

use super::table::Numbers;
use numbers::{Index, bit_at};
use records::Record;
use std::marker::PhantomData;

// n bytes at p end at or below the end. This and `ends_low` are a line each; one function for both would be no plainer.
fn has_room(bytes: &[u8], p: u64, n: u64) -> bool
    ensures { result ≡ room bytes.now p n }
{
    p.checked_add(n).is_some_and(|e| e <= bytes.len() as u64)
}

// n numbers of `width` bytes at p end at or below the end.
fn has_numbers(bytes: &[u8], p: u64, n: u64, width: u64) -> bool
    ensures { result ≡ room bytes.now p (n * width) }
{
    n.checked_mul(width).is_some_and(|m| has_room(bytes, p, m))
}

// The window ends low enough.
fn ends_low(r: Record) -> bool
    ensures { result ≡ nat_le (end_of r) 4294967295 }
{
    r.start
        .checked_add(r.length)
        .is_some_and(|e| e <= 4294967295)
}

fn validity_ok(bytes: &[u8], r: Record) -> bool
    requires { end_of r ≤ 4294967295 }
    ensures { result ≡ validity_ok bytes.now r }
{
    if r.nulls == 1 {
        has_room(bytes, r.v, (r.start + r.length + 7) / 8)
    } else {
        r.nulls == 0 && r.v == 0
    }
}

/// Position j is null by the bitmap. It is public for the crate that reads cells, of columns that the check has passed.
pub fn is_null(bytes: &[u8], r: Record, j: u64) -> bool
    requires low { j < end_of r }
    requires valid { validity_ok bytes.now r ≡ true }
    ensures { result ≡ is_null bytes.now r j }
{
    r.nulls == 1 && !bit_at(bytes, r.v as usize, j as usize)
}

// k is the one child of r.
fn is_single(r: Record, k: Record) -> bool
    ensures { result ≡ single r k }
{
    r.span >= 2 && r.span - 1 == k.span
}

// A record over the memory of its buffers: its window ends low enough, and its bitmap is there.
#[derive(Clone, Copy)]
pub(super) struct Buffers<'m> {
    pub(super) bytes: &'m [u8],
    pub(super) r: Record,
    ghost low: { end_of r ≤ 4294967295 },
    ghost valid: { validity_ok bytes.now r ≡ true },
}

impl<'m> Buffers<'m> {
    pub(super) fn of(bytes: &'m [u8], r: Record) -> Option<Self>
        ensures some { IfSome result (λ b. (b.bytes.now ≡ bytes.now) × (b.r ≡ r)) }
        ensures none { IfNone result (both (nat_le (end_of r) 4294967295) (validity_ok bytes.now r) ≡ false) }
    {
        if ends_low(r) && validity_ok(bytes, r) {
            Some(Buffers { bytes, r })
        } else {
            None
        }
    }

    // The position after the last row.
    pub(super) fn end(&self) -> u64
        ensures { result ≡ end_of self.now.r }
    {
        self.r.start + self.r.length
    }

    // The test itself stands outside, since with the fields of `self` in the closure its proof did not close.
    fn has_numbers(&self, n: u64) -> bool
        ensures { result ≡ room self.now.bytes.now self.now.r.a (n * self.now.r.width) }
    {
        has_numbers(self.bytes, self.r.a, n, self.r.width)
    }

    // The first `count` numbers, of the index kind that the width names. Each of the three callers matches the width itself: the arms have
    // different types, and no closure is generic in I.
    fn numbers<I: Index>(&self, count: u64) -> Numbers<'m, I>
        requires wide { self.now.r.width ≡ I.WIDTH }
        requires room { self.now.r.a + count * self.now.r.width ≤ length self.now.bytes.now }
        ensures of { result.of ≡ self.now }
        ensures count { result.count ≡ count }
    {
        Numbers {
            of: *self,
            count,
            kind: PhantomData,
        }
    }

    pub(super) fn flat_ok(&self) -> bool
        ensures { result ≡ in_turn (flat_tests self.now.bytes.now self.now.r) }
    {
        matches!(self.r.width, 1 | 2 | 4 | 8 | 16 | 32)
            && self.has_numbers(self.end())
            && self.r.span == 1
            && self.r.size == 0
            && self.r.b == 0
            && self.r.count == 0
    }

    pub(super) fn bit_ok(&self) -> bool
        ensures { result ≡ in_turn (bit_tests self.now.bytes.now self.now.r) }
    {
        has_room(self.bytes, self.r.a, (self.end() + 7) / 8)
            && self.r.span == 1
            && self.r.width == 0
            && self.r.size == 0
            && self.r.b == 0
            && self.r.count == 0
    }

    fn offsets_ok(&self, most: u64) -> bool
        requires { one_of self.now.r.width (4 ∷ 8 ∷ []) ≡ true }
        ensures { result ≡ offsets_ok self.now.bytes.now self.now.r most }
    {
        let count = self.end() + 1;
        self.has_numbers(count)
            && match self.r.width {
                4 => self.numbers::<i32>(count).climb(most),
                _ => self.numbers::<i64>(count).climb(most),
            }
    }

    pub(super) fn bytes_ok(&self) -> bool
        ensures { result ≡ in_turn (bytes_tests self.now.bytes.now self.now.r) }
    {
        matches!(self.r.width, 4 | 8)
            && self.offsets_ok(self.r.count)
            && has_room(self.bytes, self.r.b, self.r.count)
            && self.r.span == 1
            && self.r.size == 0
    }

    pub(super) fn list_ok(&self, k: Record) -> bool
        ensures { result ≡ in_turn (list_tests self.now.bytes.now self.now.r k) }
    {
        matches!(self.r.width, 4 | 8)
            && is_single(self.r, k)
            && self.offsets_ok(k.length)
            && self.r.size == 0
            && self.r.b == 0
            && self.r.count == 0
    }

    // The keys, by their index kind.
    fn keys_ok(&self, entries: u64) -> bool
        requires wide { one_of self.now.r.width (1 ∷ 2 ∷ 4 ∷ 8 ∷ []) ≡ true }
        requires room { self.now.r.a + end_of self.now.r * self.now.r.width ≤ length self.now.bytes.now }
        ensures { result ≡ keys_ok self.now.bytes.now self.now.r entries }
    {
        let end = self.end();
        match (self.r.width, self.r.size == 1) {
            (1, true) => self.numbers::<i8>(end).keys_ok(entries),
            (1, false) => self.numbers::<u8>(end).keys_ok(entries),
            (2, true) => self.numbers::<i16>(end).keys_ok(entries),
            (2, false) => self.numbers::<u16>(end).keys_ok(entries),
            (4, true) => self.numbers::<i32>(end).keys_ok(entries),
            (4, false) => self.numbers::<u32>(end).keys_ok(entries),
            (_, true) => self.numbers::<i64>(end).keys_ok(entries),
            (_, false) => self.numbers::<u64>(end).keys_ok(entries),
        }
    }

    pub(super) fn dictionary_ok(&self, k: Record) -> bool
        ensures { result ≡ in_turn (dictionary_tests self.now.bytes.now self.now.r k) }
    {
        matches!(self.r.width, 1 | 2 | 4 | 8)
            && self.r.size <= 1
            && self.has_numbers(self.end())
            && is_single(self.r, k)
            && self.keys_ok(k.length)
            && self.r.b == 0
            && self.r.count == 0
    }

    // The run ends, by their index kind.
    fn ends_rise(&self) -> bool
        requires wide { one_of self.now.r.width (2 ∷ 4 ∷ 8 ∷ []) ≡ true }
        requires room { self.now.r.a + self.now.r.count * self.now.r.width ≤ length self.now.bytes.now }
        ensures { result ≡ rising true self.now.r.width (end_of self.now.r) 0 (ends_of self.now.bytes.now self.now.r) }
    {
        let count = self.r.count;
        match self.r.width {
            2 => self.numbers::<i16>(count).rise(self.end()),
            4 => self.numbers::<i32>(count).rise(self.end()),
            _ => self.numbers::<i64>(count).rise(self.end()),
        }
    }

    pub(super) fn runs_ok(&self, k: Record) -> bool
        ensures { result ≡ in_turn (run_tests self.now.bytes.now self.now.r k) }
    {
        matches!(self.r.width, 2 | 4 | 8)
            && self.has_numbers(self.r.count)
            && self.ends_rise()
            && is_single(self.r, k)
            && self.r.count <= k.length
            && self.r.nulls == 0
            && self.r.size == 0
            && self.r.b == 0
    }
}
