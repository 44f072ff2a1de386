ghost use Rattle.std.specs.Prelude.{◌≡◌, ℕ, ◌+◌, ◌*◌, ◌^◌, ◌<◌, ◌≤◌, map, length, filter, nat_lt};
ghost use Rattle.std.specs.List.{range_with_len};
ghost use Rattle.interning.specs.Merging.{slots_of, used_slots};
ghost use Rattle.dictionary.specs.Pieces.{keys_of, PieceOk};
ghost use Rattle.dictionary.specs.Dictionaries.{taken};
ghost use Rattle.dictionary.specs.Tables.{mask_at, marked, mark_of, KeyBelow};

use super::dictionaries::Dictionaries;
use super::piece::Piece;
use columns::key;

// The entry that a key points to.
fn mark(mask: &mut [u64], key: Option<u64>)
    requires { KeyBelow (length mask.old) key }
    ensures { mask.new ≡ marked key mask.old }
{
    if let Some(k) = key {
        mask[k as usize] = 1;
    }
}

/// The entries of a piece that are used: 1 where a valid row's key points, else 0. It is public for the merge, which has a place for each
/// entry.
// The marks are numbers, since they stand in the lent key table, whose places hold keys afterwards.
pub fn compute_values_mask(bytes: &[u8], piece: Piece, mask: &mut [u64])
    requires ok { PieceOk bytes.now piece }
    requires long { length mask.old ≡ piece.entries.length }
    ensures { mask.new ≡ map (mask_at (keys_of bytes.now piece.keys)) (range_with_len 0 (length mask.old)) }
{
    mask.fill(0);
    // A column's rows are read by their number.
    for i in 0..piece.keys.length {
        mark(mask, key(bytes, piece.keys, i));
    }
}

// The marks of all slots: 1 where a slot is used.
#[tactic(auto, using(crate::proofs::Masks::masking_end, crate::proofs::Masks::mask_within, crate::proofs::Masks::mask_long))]
fn mask_slots(from: &Dictionaries<'_>, keys: &mut [u64])
    requires { length keys.old ≡ length (slots_of (taken from.now)) }
    ensures { keys.new ≡ map (mark_of (taken from.now)) (slots_of (taken from.now)) }
{
    // A running `at`: with `split_at_mut` in the loop the proof of what the whole table then holds did not close.
    let mut at = 0;
    for piece in from.pieces {
        let end = at + piece.entries.length as usize;
        compute_values_mask(from.bytes, *piece, &mut keys[at..end]);
        at = end;
    }
}

// How many slots there are. Beside `total_rows`: one line each, whose contracts name different sums.
pub(super) fn total_slots(from: &Dictionaries<'_>) -> u64
    requires few { length from.now.pieces.now ≤ 64 }
    ensures total { result ≡ length (slots_of (taken from.now)) }
    ensures low { result < 2 ^ 40 }
{
    from.pieces.iter().map(|piece| piece.entries.length).sum()
}

// How many marks are set. A sum becomes vector code, `filter` and `count` a branch for each mark. The lemmas say that the sum is the count and
// that it fits.
#[tactic(auto, using(crate::proofs::Masks::set_sum, crate::proofs::Masks::set_fits))]
fn count_used(marks: &[u64]) -> u64
    ensures { result ≡ length (filter (λ m. nat_lt 0 m) marks.now) }
{
    marks.iter().map(|mark| u64::from(*mark > 0)).sum()
}

// Marks the used slots, and counts them.
#[tactic(auto, using(crate::proofs::Masks::set_used, crate::proofs::Masks::set_few))]
pub(super) fn mark_used(from: &Dictionaries<'_>, keys: &mut [u64]) -> u64
    requires { length keys.old ≡ length (slots_of (taken from.now)) }
    ensures marks { keys.new ≡ map (mark_of (taken from.now)) (slots_of (taken from.now)) }
    ensures used { result ≡ length (used_slots (taken from.now)) }
    ensures low { result ≤ length keys.old }
{
    mask_slots(from, keys);
    count_used(keys)
}
