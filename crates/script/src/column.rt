use records::Record;
use std::alloc::Global;

/// A column outside any store: its records, and the bytes that their places count in.
#[derive(Debug, Drop)]
pub struct Column {
    pub records: Vec<Record>,
    pub bytes: Vec<u8>,
}

impl Column {
    pub fn new(heap: Global) -> Column {
        Column {
            records: Vec::new(heap),
            bytes: Vec::new(heap),
        }
    }
}
