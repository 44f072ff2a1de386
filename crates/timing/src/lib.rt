//! What the benchmark in bench/ links: the hash of one name, and the merge of one dictionary column under FNV-1a.
#![tactic(auto)]

use dictionary::{Stretch, Tables, merge_pieces};
use hashes::{Fnv1a, Hash};
use records::{Record, Slot};

/// The number of a name.
#[unsafe(no_mangle)]
pub extern "C" fn timing_fnv1a(name: &[u8]) -> u64 {
    let mut hash = Fnv1a {};
    hash.hash(name)
}

/// The number of entries, or 0 where the merge is refused; numbers and slices one by one. C calls it, which has no `Result` and no `Tables`.
#[unsafe(no_mangle)]
pub extern "C" fn timing_merge(
    records: &[Record],
    bytes: &[u8],
    rows: u64,
    keys: &mut [u64],
    buckets: &mut [u64],
    chosen: &mut [Slot],
) -> u64 {
    let mut hash = Fnv1a {};
    let inputs = [Stretch {
        place: 0,
        first: 0,
        rows,
    }];
    let mut tables = Tables {
        keys,
        buckets,
        chosen,
    };
    merge_pieces(records, bytes, &inputs, &mut hash, &mut tables).unwrap_or(0)
}
