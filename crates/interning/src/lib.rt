//! Interning and the merge of dictionaries, as definitions (specs/) and theorems about them (proofs/). Each function here is proved to
//! have the theorem that its contract names.
#![tactic(auto)]

ghost use Rattle.interning.specs.Promises.{Equality, InterningRight, MergingRight, MeaningDecides, AllBucketsRight};

/// Equality of bytes is a sameness.
pub fn equality_holds()
    ensures { Equality }
{}

/// Interned values have the numbers of entries that are the same, in order of first sight.
pub fn interning_right()
    ensures { InterningRight }
{}

/// Merged keys point to the values that the old keys pointed to, and every merged entry is some valid row's.
pub fn merging_right()
    ensures { MergingRight }
{}

/// Hashes that agree on every string give equal merges.
pub fn meaning_decides()
    ensures { MeaningDecides }
{}

/// The number of buckets is the smallest power of two above u + 128, and a value's bucket is one of them.
pub fn buckets_right()
    ensures { AllBucketsRight }
{}
