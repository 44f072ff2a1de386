ghost use Rattle.std.specs.Prelude.{◌≡◌, ◌+◌, ◌-◌, ◌*◌, ◌<◌, ◌≤◌, map, length, ◌==◌};
ghost use Rattle.std.specs.List.{range_with_len};
ghost use Rattle.numbers.specs.Little.{as_index, value_of};
ghost use Rattle.format.specs.Meaning.{number, ends_of};
ghost use Rattle.format.specs.Rules.{end_of, key_ok};
ghost use Rattle.column_check.specs.Tests.{at_least, above, climbs, offsets_of, keys_ok, rising};

use super::rules::{Buffers, is_null};
use numbers::Index;
use std::marker::PhantomData;

// The first `count` numbers of the first buffer of a record: keys, offsets or run ends of the index kind I.
#[derive(Drop)]
pub(super) struct Numbers<'m, I: Index> {
    pub(super) of: Buffers<'m>,
    pub(super) count: u64,
    pub(super) kind: PhantomData<I>,
    ghost wide: { of.r.width ≡ I.WIDTH },
    ghost room: { of.r.a + count * of.r.width ≤ length of.bytes.now },
}

impl<I: Index> Numbers<'_, I> {
    // Number j; None where it is negative. The index is a plain number, so this and the tests below ask that it is below the count.
    fn get(&self, j: u64) -> Option<u64>
        requires { j < self.now.count }
        ensures { result ≡ as_index (value_of I.SIGNED self.now.of.r.width (number self.now.of.bytes.now self.now.of.r j)) }
    {
        I::read(self.of.bytes, self.of.r.a as usize + j as usize * I::WIDTH)
    }

    // Number j, where it is not below `least`.
    fn at_least(&self, least: u64, j: u64) -> Option<u64>
        requires { j < self.now.count }
        ensures { result ≡ at_least I.SIGNED self.now.of.r.width least (number self.now.of.bytes.now self.now.of.r j) }
    {
        let n = self.get(j)?;
        (least <= n).then_some(n)
    }

    // Number j, where it is above `last`. Beside `at_least`, since a parameter for the one sign would be longer.
    fn above(&self, last: u64, j: u64) -> Option<u64>
        requires { j < self.now.count }
        ensures { result ≡ above I.SIGNED self.now.of.r.width last (number self.now.of.bytes.now self.now.of.r j) }
    {
        let n = self.get(j)?;
        (last < n).then_some(n)
    }

    // Offsets: from the window on they never fall, and the last is at most `most`.
    pub(super) fn climb(&self, most: u64) -> bool
        requires { self.now.count ≡ end_of self.now.of.r + 1 }
        ensures { result ≡ climbs I.SIGNED self.now.of.r.width most 0 (offsets_of self.now.of.bytes.now self.now.of.r) }
    {
        (self.of.r.start..self.count)
            .try_fold(0, |last, j| self.at_least(last, j))
            .is_some_and(|last| last <= most)
    }

    // Run ends: they rise from above 0, and the last is at least `end`.
    pub(super) fn rise(&self, end: u64) -> bool
        requires { self.now.count ≡ self.now.of.r.count }
        ensures { result ≡ rising I.SIGNED self.now.of.r.width end 0 (ends_of self.now.of.bytes.now self.now.of.r) }
    {
        (0..self.count)
            .try_fold(0, |last, k| self.above(last, k))
            .is_some_and(|last| end <= last)
    }

    // The key at position j names an entry, unless the position is null.
    fn key_ok(&self, entries: u64, j: u64) -> bool
        requires low { j < self.now.count }
        requires all { self.now.count ≡ end_of self.now.of.r }
        requires sign { (self.now.of.r.size == 1) ≡ I.SIGNED }
        ensures { result ≡ key_ok self.now.of.bytes.now self.now.of.r entries j }
    {
        is_null(self.of.bytes, self.of.r, j) || self.get(j).is_some_and(|key| key < entries)
    }

    pub(super) fn keys_ok(&self, entries: u64) -> bool
        requires all { self.now.count ≡ end_of self.now.of.r }
        requires sign { (self.now.of.r.size == 1) ≡ I.SIGNED }
        ensures { result ≡ keys_ok self.now.of.bytes.now self.now.of.r entries }
    {
        let r = self.of.r;
        (r.start..self.count).all(|j| self.key_ok(entries, j))
    }
}
