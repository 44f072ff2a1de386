ghost use Rattle.std.specs.Prelude.{◌≡◌, ℕ, ◌+◌, ◌*◌, ◌/◌, ◌^◌, ◌<◌, ◌≤◌, IsTrue, Bool, true, false, map, length, take, filter, slice_index, slice_index_or, slice_set};
ghost use Rattle.interning.specs.Values.{hashed_as, same_value};
ghost use Rattle.interning.specs.Merging.{value_of, slot as slot_at, slots_in, slots_of, used_slots, is_used, count_of_buckets, chosen_slots, key_here, stepped, keys_from, walked, slot_keys};
ghost use Rattle.dictionary.specs.Pieces.{seen, no_piece};
ghost use Rattle.dictionary.specs.Dictionaries.{taken, HasSlot};
ghost use Rattle.dictionary.specs.Tables.{Stands, Interns, HeldSlot, held_entry, so_far, in_table, mark_of, SameLent, Kept};

use super::dictionaries::Dictionaries;
use super::equal::same_bytes;
use hashes::Hash;
use records::Slot;

// The number of a value: an absent one is hashed as the empty string.
fn hash_value<H: Hash>(hash: &mut H, value: Option<&[u8]>) -> u64
    ensures value { result ≡ H.meaning hash.old (hashed_as (seen value.entry)) }
    ensures same { H.meaning hash.new ≡ H.meaning hash.old }
{
    hash.hash(value.unwrap_or(&[]))
}

// Equal bytes, or both absent: an absent value is not the empty string.
fn same_value(a: Option<&[u8]>, b: Option<&[u8]>) -> bool
    ensures { result ≡ same_value (seen a.entry) (seen b.entry) }
{
    match (a, b) {
        (Some(x), Some(y)) => same_bytes(x, y),
        (None, None) => true,
        _ => false,
    }
}

/// Interns the values of slots, by a best effort: a bucket holds one entry, and a value that meets another one there takes its place.
// No ghost field says that the tables stand for the entries: tried, its proof did not close between the two writes of a new entry. The
// hash and the pieces are passed to each method: held here, each contract would also say that they stay.
#[derive(Drop)]
pub struct Interner<'t> {
    // For each bucket, one more than the number of the last entry in it, or 0 where it is empty: a number, since the table is lent.
    buckets: &'t mut [u64],
    // The slot that became each entry, at the front of a lent table: no heap.
    chosen: &'t mut [Slot],
    entries: u64,
    shift: u32,
}

impl<'t> Interner<'t> {
    // A new entry in bucket b.
    fn add(&mut self, b: usize, slot: Slot)
        requires bucket { b < length self.old.buckets.now }
        requires room { self.old.entries < length self.old.chosen.now }
        ensures buckets { self.new.buckets.now ≡ slice_set self.old.buckets.now b (self.old.entries + 1) }
        ensures chosen { self.new.chosen.now ≡ slice_set self.old.chosen.now self.old.entries slot }
        ensures entries { self.new.entries ≡ self.old.entries + 1 }
        ensures shift { self.new.shift ≡ self.old.shift }
        ensures lent { SameLent self.old self.new }
    {
        let n = self.entries;
        self.buckets[b] = n + 1;
        self.chosen[n as usize] = slot;
        self.entries = n + 1;
    }

    // Entry n has this value.
    fn is_entry(&self, from: &Dictionaries<'_>, n: u64, value: Option<&[u8]>) -> bool
        requires low { n < length self.now.chosen.now }
        requires slot { HasSlot from.now (slice_index_or self.now.chosen.now n (slot_at 0 0)) }
        ensures { result ≡ same_value (value_of (taken from.now) (slice_index_or self.now.chosen.now n (slot_at 0 0))) (seen value.entry) }
    {
        same_value(from.value(self.chosen[n as usize]), value)
    }

    // The number of the entry in bucket b, where it has this value.
    fn known(&self, from: &Dictionaries<'_>, b: usize, value: Option<&[u8]>) -> Option<u64>
        requires bucket { b < length self.now.buckets.now }
        requires entry { HeldSlot from.now.pieces.now self.now.chosen.now (slice_index self.now.buckets.now b) }
        ensures { result ≡ held_entry (taken from.now) self.now.chosen.now (slice_index self.now.buckets.now b) (seen value.entry) }
    {
        let n = self.buckets[b].checked_sub(1)?;
        self.is_entry(from, n, value).then_some(n)
    }

    // The bucket of a value.
    fn bucket<H: Hash>(&self, hash: &mut H, value: Option<&[u8]>) -> usize
        requires { self.now.shift < 64 }
        ensures value { result ≡ H.meaning hash.old (hashed_as (seen value.entry)) / 2 ^ self.now.shift }
        ensures low { H.meaning hash.old (hashed_as (seen value.entry)) < 2 ^ 64 }
        ensures same { H.meaning hash.new ≡ H.meaning hash.old }
    {
        (hash_value(hash, value) >> self.shift) as usize
    }

    /// The entry number of the value of a slot, and whether it is new, as a set's `insert_full` answers. It is public for the merge, whose tables stand for its entries.
    pub fn intern<H: Hash>(
        &mut self,
        hash: &mut H,
        from: &Dictionaries<'_>,
        slot: Slot,
    ) -> (u64, bool)
        requires slot { HasSlot from.now slot }
        requires stands { Stands (H.meaning hash.old) from.now self.old }
        requires room { self.old.entries < length self.old.chosen.now }
        ensures answer { Interns (H.meaning hash.old) (taken from.now) (so_far self.old) slot result.0 result.1 (so_far self.new) }
        ensures low { result.0 ≤ self.old.entries }
        ensures kept { Kept (H.meaning hash.old) (H.meaning hash.new) from.now self.old self.new }
    {
        let value = from.value(slot);
        let b = self.bucket(hash, value);
        match self.known(from, b, value) {
            Some(n) => (n, false),
            None => {
                let n = self.entries;
                self.add(b, slot);
                (n, true)
            }
        }
    }

    // The place of a slot in the key table: one more than its entry number where it is used, else 0.
    fn key<H: Hash>(&mut self, hash: &mut H, from: &Dictionaries<'_>, slot: Slot, used: bool) -> u64
        requires slot { HasSlot from.now slot }
        requires stands { Stands (H.meaning hash.old) from.now self.old }
        requires mark { used ≡ is_used (taken from.now) slot }
        requires room { IsTrue used → self.old.entries < length self.old.chosen.now }
        ensures key { result ≡ in_table (key_here same_value (H.meaning hash.old) (taken from.now) slot (so_far self.old)) }
        ensures entries { so_far self.new ≡ stepped same_value (H.meaning hash.old) (taken from.now) slot (so_far self.old) }
        ensures kept { Kept (H.meaning hash.old) (H.meaning hash.new) from.now self.old self.new }
    {
        if !used {
            return 0;
        }
        let (n, _) = self.intern(hash, from, slot);
        n + 1
    }

    // The keys of the slots of one input, in whose places their marks stand.
    fn intern_masked_values<H: Hash>(
        &mut self,
        hash: &mut H,
        from: &Dictionaries<'_>,
        input: u64,
        keys: &mut [u64],
    )
        requires input { input < length from.now.pieces.now }
        requires long { length keys.old ≡ (slice_index_or from.now.pieces.now input no_piece).entries.length }
        requires marks { keys.old ≡ map (mark_of (taken from.now)) (slots_in input (length keys.old)) }
        requires stands { Stands (H.meaning hash.old) from.now self.old }
        requires room { self.old.entries + length (filter (is_used (taken from.now)) (slots_in input (length keys.old))) ≤ length self.old.chosen.now }
        ensures keys { keys.new ≡ map in_table (keys_from same_value (H.meaning hash.old) (taken from.now) (slots_in input (length keys.old)) (so_far self.old)) }
        ensures entries { so_far self.new ≡ walked same_value (H.meaning hash.old) (taken from.now) (slots_in input (length keys.old)) (so_far self.old) }
        ensures kept { Kept (H.meaning hash.old) (H.meaning hash.new) from.now self.old self.new }
    {
        for (j, key) in keys.iter_mut().enumerate() {
            let entry = j as u64;
            let used = *key > 0;
            *key = self.key(hash, from, Slot { input, entry }, used);
        }
    }

    // The keys of all slots, in whose places their marks stand.
    fn intern_all<H: Hash>(&mut self, hash: &mut H, from: &Dictionaries<'_>, keys: &mut [u64])
        requires marks { keys.old ≡ map (mark_of (taken from.now)) (slots_of (taken from.now)) }
        requires stands { Stands (H.meaning hash.old) from.now self.old }
        requires room { self.old.entries + length (used_slots (taken from.now)) ≤ length self.old.chosen.now }
        ensures keys { keys.new ≡ map in_table (keys_from same_value (H.meaning hash.old) (taken from.now) (slots_of (taken from.now)) (so_far self.old)) }
        ensures entries { so_far self.new ≡ walked same_value (H.meaning hash.old) (taken from.now) (slots_of (taken from.now)) (so_far self.old) }
        ensures kept { Kept (H.meaning hash.old) (H.meaning hash.new) from.now self.old self.new }
    {
        // A running `at`: with `split_at_mut` in the loop the proof of what the whole table then holds did not close.
        let mut at = 0;
        for (i, piece) in from.pieces.iter().enumerate() {
            let end = at + piece.entries.length as usize;
            self.intern_masked_values(hash, from, i as u64, &mut keys[at..end]);
            at = end;
        }
    }
}

// Interns the used slots, whose marks stand in `keys`, a part of the key table: then their keys stand there, and the slots that became entries in `chosen`. The
// bucket table has at least as many places as there are buckets. Answers the number of entries. Keys and buckets are
// cut to length, so the tables come one by one.
pub(super) fn intern_slots<H: Hash>(
    from: &Dictionaries<'_>,
    hash: &mut H,
    keys: &mut [u64],
    buckets: &mut [u64],
    chosen: &mut [Slot],
    shift: u32,
) -> u64
    requires marks { keys.old ≡ map (mark_of (taken from.now)) (slots_of (taken from.now)) }
    requires whole { count_of_buckets (taken from.now) * 2 ^ shift ≡ 2 ^ 64 }
    requires low { shift < 64 }
    requires wide { count_of_buckets (taken from.now) ≤ length buckets.old }
    requires room { length (used_slots (taken from.now)) ≤ length chosen.old }
    ensures entries { result ≡ length (chosen_slots same_value (H.meaning hash.old) (taken from.now)) }
    ensures keys { keys.new ≡ map in_table (slot_keys same_value (H.meaning hash.old) (taken from.now)) }
    ensures chosen { take result chosen.new ≡ chosen_slots same_value (H.meaning hash.old) (taken from.now) }
    ensures same { H.meaning hash.new ≡ H.meaning hash.old }
{
    buckets.fill(0);
    let mut interner = Interner {
        buckets,
        chosen,
        entries: 0,
        shift,
    };
    interner.intern_all(hash, from, keys);
    interner.entries
}
