use records::Slot;

/// The tables that a merge is lent.
#[derive(Drop)]
pub struct Tables<'t> {
    /// For each slot in order, one more than its entry number, or 0 where it is unused: a number, since the table is lent.
    pub keys: &'t mut [u64],
    /// For each bucket, one more than the number of the last entry in it, or 0 where it is empty: a number, likewise.
    pub buckets: &'t mut [u64],
    /// The slot that became each entry.
    pub chosen: &'t mut [Slot],
}
