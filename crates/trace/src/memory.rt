use records::Record;
use script::{Column, Mistake};
use std::alloc::{AllocError, Global};
use store::{Cell, Fault, Marks, Stretch};

const MOST_RECORDS: u64 = 16777216;

const MOST_BYTES: u64 = 1073741824;

/// A store with the memory that it works on.
#[derive(Drop)]
pub struct Memory {
    records: Vec<Record>,
    bytes: Vec<u8>,
    marks: Marks,
}

impl Memory {
    pub fn new(heap: Global, records: u64, bytes: u64) -> Result<Memory, Mistake> {
        if records > MOST_RECORDS || bytes > MOST_BYTES {
            return Err(Mistake::TooLarge);
        }
        Ok(Memory {
            records: vec![in heap; Record::default(); records as usize]?,
            bytes: vec![in heap; 0; bytes as usize]?,
            marks: store::set_up(),
        })
    }

    pub fn admit(&mut self, column: &Column) -> Result<u64, Fault> {
        store::admit(
            self.records.as_mut_slice(),
            self.bytes.as_mut_slice(),
            &mut self.marks,
            column.records.as_slice(),
            column.bytes.as_slice(),
        )
    }

    pub fn slice(&mut self, stretch: Stretch) -> Result<u64, Fault> {
        store::slice(
            self.records.as_mut_slice(),
            self.bytes.as_slice(),
            &mut self.marks,
            stretch,
        )
    }

    pub fn cell(&self, place: u64, row: u64) -> Result<Cell<'_>, Fault> {
        store::cell(
            self.records.as_slice(),
            self.bytes.as_slice(),
            &self.marks,
            place,
            row,
        )
    }

    pub fn show_rows(&self, out: &mut String, place: u64) -> Result<(), AllocError> {
        script::show_rows(out, self.records(), self.bytes(), place)
    }

    pub fn show_dump(&self, out: &mut String) -> Result<(), AllocError> {
        script::show_dump(out, self.records(), self.bytes())
    }

    fn records(&self) -> &[Record] {
        below(self.records.as_slice(), self.marks.records())
    }

    fn bytes(&self) -> &[u8] {
        below(self.bytes.as_slice(), self.marks.bytes())
    }
}

// What lies below a mark.
fn below<T>(all: &[T], mark: u64) -> &[T] {
    &all[..all.len().min(mark as usize)]
}
