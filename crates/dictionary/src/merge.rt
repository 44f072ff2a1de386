ghost use Rattle.std.specs.Prelude.{◌≡◌, ℕ, ◌+◌, ◌*◌, ◌^◌, ◌<◌, ◌≤◌, true, [], ◌∷◌, length, nat_le, nat_lt, ◌↔◌, IsTrue, All};
ghost use Rattle.interning.specs.Buckets.{buckets_for};
ghost use Rattle.dictionary.specs.Dictionaries.{taken};
ghost use Rattle.format.specs.Rules.{every};
ghost use Rattle.dictionary.specs.Tables.{SameTables};
ghost use Rattle.dictionary.specs.Merges.{most_key, MergeContract, same_record, row_total, either, should_merge};

use super::dictionaries::Dictionaries;
use super::interner::intern_slots;
use super::mask::{mark_used, total_slots};
use super::piece::Piece;
use super::tables::Tables;
use hashes::Hash;
use numbers::largest_of;
use records::Record;

/// Why dictionaries are not merged.
#[derive(Clone, Copy, Debug, PartialEq, Eq)]
pub enum MergeFault {
    /// A lent table is shorter than the merge needs.
    Scratch,
    /// There are more entries than keys can number.
    Keys,
}

// By how many bits a hash is shifted to the right to be the number of a bucket.
#[tactic(auto, using(crate::proofs::Counts::shift_whole, crate::proofs::Counts::shift_low, crate::proofs::Counts::shift_some))]
fn bucket_shift(used: u64) -> u32
    requires { used < 2 ^ 40 }
    ensures whole { buckets_for used * 2 ^ result ≡ 2 ^ 64 }
    ensures low { result < 64 }
    ensures some { 0 < result }
{
    (used + 128).leading_zeros()
}

// How many buckets there are.
fn bucket_count(shift: u32) -> u64
    requires low { shift < 64 }
    requires some { 0 < shift }
    ensures { result * 2 ^ shift ≡ 2 ^ 64 }
{
    1 << (64 - shift)
}

// The largest key.
#[tactic(auto, using(crate::proofs::Counts::key_width))]
fn most_key(from: &Dictionaries<'_>) -> u64
    ensures { result ≡ most_key from.now.pieces.now }
{
    match from.pieces.first() {
        Some(first) => largest_of(first.keys.size == 1, first.keys.width as usize),
        None => 0,
    }
}

// Keys up to `most` cannot number that many entries.
fn outnumbers(entries: u64, most: u64) -> bool
    ensures { result ≡ nat_lt (most + 1) entries }
{
    entries > most.saturating_add(1)
}

/// Merges the entries of dictionaries: see the contract for the answer. The key table then begins with what it says of each slot, and the
/// chosen table with the slots of the entries. It is public for the store's joins, which have checked their columns.
pub fn merge_dictionary_values<H: Hash>(
    from: &Dictionaries<'_>,
    hash: &mut H,
    tables: &mut Tables<'_>,
) -> Result<u64, MergeFault>
    requires few { length from.now.pieces.now ≤ 64 }
    ensures merges { MergeContract result (H.meaning hash.old) (most_key from.now.pieces.now) (taken from.now) (length tables.old.buckets.now) tables.new.keys.now tables.new.chosen.now }
    ensures lent { SameTables tables.old tables.new }
    ensures same { H.meaning hash.new ≡ H.meaning hash.old }
{
    let keys = &mut *tables.keys;
    let buckets = &mut *tables.buckets;
    let chosen = &mut *tables.chosen;
    let total = total_slots(from) as usize;
    if keys.len() < total {
        return Err(MergeFault::Scratch);
    }
    let slots = &mut keys[..total];
    let used = mark_used(from, slots);
    let shift = bucket_shift(used);
    let count = bucket_count(shift) as usize;
    if buckets.len() < count || chosen.len() < used as usize {
        return Err(MergeFault::Scratch);
    }
    let buckets = &mut buckets[..count];
    let entries = intern_slots(from, hash, slots, buckets, chosen, shift);
    if outnumbers(entries, most_key(from)) {
        return Err(MergeFault::Keys);
    }
    Ok(entries)
}

// A piece has these entries. With a bare `==` in the closure below, its proof did not close.
fn has_entries(piece: &Piece, entries: Record) -> bool
    ensures { IsTrue result ↔ (piece.now.entries ≡ entries) }
{
    piece.entries == entries
}

// All pieces have the entries of the first.
fn same_entries(pieces: &[Piece], first: Record) -> bool
    ensures { IsTrue result ↔ All (λ q. q.entries ≡ first) pieces.now }
{
    pieces.iter().all(|piece| has_entries(piece, first))
}

// The joined rows. Beside `total_slots`: one line each, whose contracts name different sums.
fn total_rows(from: &Dictionaries<'_>) -> u64
    requires few { length from.now.pieces.now ≤ 64 }
    ensures { result ≡ row_total from.now.pieces.now }
{
    from.pieces.iter().map(|piece| piece.keys.length).sum()
}

// There are more slots than the largest key, or at least as many as joined rows.
fn pays(slots: u64, most: u64, rows: u64) -> bool
    ensures { result ≡ either (nat_lt most slots) (nat_le rows slots) }
{
    slots > most || slots >= rows
}

/// Entries are merged where not all pieces have the same, and there are more slots than the largest key, or at least as many as joined
/// rows. It is public for the store's joins, which have checked their columns.
pub fn should_merge_dictionary_values(from: &Dictionaries<'_>) -> bool
    requires few { length from.now.pieces.now ≤ 64 }
    ensures { result ≡ should_merge from.now.pieces.now }
{
    let Some(first) = from.pieces.first() else {
        return false;
    };
    !same_entries(from.pieces, first.entries)
        && pays(total_slots(from), most_key(from), total_rows(from))
}
