ghost use Rattle.std.specs.Prelude.{◌≡◌, ◌+◌, ◌-◌, ◌<◌, ◌≤◌, true, false, length, nat_le};
ghost use Rattle.std.specs.List.{range_with_len};
ghost use Rattle.format.specs.Trees.{rec_at};
ghost use Rattle.format.specs.Rules.{both, end_of, validity_ok, first_not, first_broken};
ghost use Rattle.column_check.specs.Tests.{in_turn, reaches, walk, struct_tests, kind_ok, record_tests, inner_tests, inner_from, root_tests};

use super::rules::Buffers;
use records::{Kind, Record};

// `span` records from p on end at or below `end`.
fn ends_by(p: usize, span: u64, end: usize) -> bool
    requires { p ≤ end }
    ensures { result ≡ nat_le (p + span) end }
{
    span <= (end - p) as u64
}

// A child at k: it has records, ends at or below `end`, and is long enough.
fn child_ok(r: Record, k: usize, end: usize, rows: u64) -> bool
    requires { k ≤ end }
    ensures { result ≡ both (nat_le 1 r.span) (both (nat_le (k + r.span) end) (reaches rows r)) }
{
    r.span >= 1 && ends_by(k, r.span, end) && r.length >= rows
}

// The trees from `from` up to `end`: each is long enough.
#[tactic(auto, using(crate::proofs::Loops::walk_more, crate::proofs::Loops::walk_stop, crate::proofs::Loops::walk_done))]
fn children_ok(records: &[Record], from: usize, end: usize, rows: u64) -> bool
    requires order { from ≤ end }
    requires inside { end ≤ length records.now }
    ensures { result ≡ walk (end - from) (reaches rows) records.now from end }
{
    // A child's span leads to the next. An index says so as plainly as the slice that is left would.
    let mut k = from;
    while k < end {
        if !child_ok(records[k], k, end, rows) {
            return false;
        }
        k += records[k].span as usize;
    }
    true
}

fn struct_ok(records: &[Record], buffers: &Buffers, p: usize) -> bool
    requires some { 1 ≤ buffers.now.r.span }
    requires inside { p + buffers.now.r.span ≤ length records.now }
    ensures { result ≡ in_turn (struct_tests records.now buffers.now.r p) }
{
    let r = buffers.r;
    r.width == 0
        && r.size == 0
        && r.a == 0
        && r.b == 0
        && r.count == 0
        && children_ok(records, p + 1, p + r.span as usize, buffers.end())
}

/// The record at p, or one of zeros beyond the end.
pub fn record_at(records: &[Record], p: usize) -> Record
    ensures { result ≡ rec_at records.now p }
{
    records.get(p).copied().unwrap_or_default()
}

// The rules of its kind, for the record at p.
fn kind_ok(records: &[Record], buffers: &Buffers, p: usize) -> bool
    requires some { 1 ≤ buffers.now.r.span }
    requires inside { p + buffers.now.r.span ≤ length records.now }
    ensures { result ≡ kind_ok buffers.now.bytes.now records.now buffers.now.r p }
{
    // The kinds are closed, so a match names them all; functions in a table would not be plainer.
    match Kind::try_from(buffers.r.kind) {
        Ok(Kind::Flat) => buffers.flat_ok(),
        Ok(Kind::Bits) => buffers.bit_ok(),
        Ok(Kind::Bytes) => buffers.bytes_ok(),
        Ok(Kind::Dictionary) => buffers.dictionary_ok(record_at(records, p + 1)),
        Ok(Kind::List) => buffers.list_ok(record_at(records, p + 1)),
        Ok(Kind::Struct) => struct_ok(records, buffers, p),
        Ok(Kind::Runs) => buffers.runs_ok(record_at(records, p + 1)),
        Err(_) => false,
    }
}

// The memory of a column that ends at `end`.
#[derive(Clone, Copy)]
struct Memory<'m> {
    records: &'m [Record],
    bytes: &'m [u8],
    end: usize,
    ghost inside: { end ≤ length records.now },
}

impl<'m> Memory<'m> {
    // The memory of a column of `span` records at q.
    fn of(records: &'m [Record], bytes: &'m [u8], q: usize, span: u64) -> Self
        requires { q + span ≤ length records.now }
        ensures records { result.records.now ≡ records.now }
        ensures bytes { result.bytes.now ≡ bytes.now }
        ensures end { result.end ≡ q + span }
    {
        Memory {
            records,
            bytes,
            end: q + span as usize,
        }
    }

    // The record at p breaks no rule.
    fn record_ok(&self, p: usize) -> bool
        requires here { p < length self.now.records.now }
        requires from { p ≤ self.now.end }
        ensures { result ≡ in_turn (record_tests self.now.bytes.now self.now.records.now self.now.end p) }
    {
        let r = self.records[p];
        if r.logic > 65535 {
            return false;
        }
        let Some(buffers) = Buffers::of(self.bytes, r) else {
            return false;
        };
        r.span >= 1 && ends_by(p, r.span, self.end) && kind_ok(self.records, &buffers, p)
    }

    fn inner_ok(&self, p: usize) -> bool
        requires { p < self.now.end }
        ensures { result ≡ in_turn (inner_tests self.now.bytes.now self.now.records.now self.now.end p) }
    {
        self.records[p].root == 0 && self.record_ok(p)
    }

    // The first record after the one at q that breaks a rule, by its distance from q.
    fn first_inner(&self, q: usize, span: u64) -> Option<u64>
        requires { q + span ≡ self.now.end }
        ensures { result ≡ first_not (inner_from self.now.bytes.now self.now.records.now q span) (range_with_len 1 (span - 1)) }
    {
        (1..span).find(|&i| !self.inner_ok(q + i as usize))
    }
}

fn root_ok(records: &[Record], bytes: &[u8], place: u64) -> bool
    ensures { result ≡ in_turn (root_tests bytes.now records.now place) }
{
    let q = place as usize;
    let Some(r) = records.get(q) else {
        return false;
    };
    r.root == 1
        && r.span <= 64
        && ends_by(q, r.span, records.len())
        && Memory::of(records, bytes, q, r.span).record_ok(q)
}

// The number of the first record of the column at `place` that breaks a rule. It may be asked of any memory.
#[tactic(auto, using(crate::proofs::Same::root_here, crate::proofs::Same::root_inside, crate::proofs::Same::first_then, crate::proofs::Same::first_else))]
pub(super) fn first_broken(records: &[Record], bytes: &[u8], place: u64) -> Option<u64>
    ensures { result ≡ first_broken bytes.now records.now place }
{
    if root_ok(records, bytes, place) {
        let q = place as usize;
        let span = records[q].span;
        Memory::of(records, bytes, q, span).first_inner(q, span)
    } else {
        Some(0)
    }
}
