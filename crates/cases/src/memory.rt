// A store with its memory. Before the first call each byte is 0xee, and so is each field of each record.
use super::change::{Change, Field, set_field};
use super::faults::numbers;
use super::layout::lay;
use records::Record;
use std::alloc::{AllocError, Global};
use store::{Cell, Fault, Marks, Stretch, admit, cell, set_up, slice};

const FILL: u8 = 0xee;

#[derive(Clone, Copy)]
pub enum Call {
    // a column, as it is laid out, with changes
    Admit(&'static [Record], &'static [Change]),
    // place, first row, rows: one by one, since the tables of cases have many
    Slice(u64, u64, u64),
    // place, row
    Cell(u64, u64),
    // not calls of the store: both marks; a record; the bytes from a place up to another
    Marks,
    Record(usize),
    Bytes(usize, usize),
    // only so many records and bytes of the memory are lent from now on
    Lend(usize, usize),
    // a field of a record in memory
    Spoil(usize, Field, u64),
}

#[derive(Drop)]
pub struct Memory {
    heap: Global,
    records: Vec<Record>,
    bytes: Vec<u8>,
    marks: Marks,
}

// What the memory and the marks were.
#[derive(Drop)]
pub struct Before {
    records: Vec<Record>,
    bytes: Vec<u8>,
    record_mark: u64,
    byte_mark: u64,
}

// The elements outside `low..high` are the same.
fn keeps<T: PartialEq>(old: &[T], new: &[T], low: u64, high: u64) -> bool {
    let changed = low..high;
    old.len() == new.len()
        && (0u64..)
            .zip(old.iter().zip(new))
            .all(|(i, (x, y))| changed.contains(&i) || *x == *y)
}

fn refusal(heap: Global, fault: Fault) -> Result<String, AllocError> {
    let told = numbers(heap, fault)?;
    format!(in heap; "refused {told}")
}

fn placed(heap: Global, answer: Result<u64, Fault>) -> Result<String, AllocError> {
    match answer {
        Ok(place) => format!(in heap; "place {place}"),
        Err(fault) => refusal(heap, fault),
    }
}

fn held(heap: Global, cell: Cell<'_>) -> Result<String, AllocError> {
    match cell {
        Cell::Null => String::from_str(heap, "null"),
        Cell::Bit(bit) => format!(in heap; "bit {}", u8::from(bit)),
        Cell::Bytes { place, part } => {
            let hex = hex::encode(heap, part)?;
            format!(in heap; "bytes {place} x{hex}")
        }
    }
}

impl Memory {
    pub fn new(heap: Global, records: usize, bytes: usize) -> Result<Memory, AllocError> {
        let record = Record::from([u64::from(FILL); 13]);
        Ok(Memory {
            heap,
            records: vec![in heap; record; records]?,
            bytes: vec![in heap; FILL; bytes]?,
            marks: set_up(),
        })
    }

    pub fn copied(&self) -> Result<Before, AllocError> {
        Ok(Before {
            records: self.records.clone()?,
            bytes: self.bytes.clone()?,
            record_mark: self.marks.records(),
            byte_mark: self.marks.bytes(),
        })
    }

    // Nothing has changed but what lies between the old marks and the new.
    pub fn keeps(&self, old: &Before) -> bool {
        keeps(
            old.records.as_slice(),
            self.records.as_slice(),
            old.record_mark,
            self.marks.records(),
        ) && keeps(
            old.bytes.as_slice(),
            self.bytes.as_slice(),
            old.byte_mark,
            self.marks.bytes(),
        )
    }

    // Neither mark has moved.
    pub fn has_marks_of(&self, old: &Before) -> bool {
        self.marks.records() == old.record_mark && self.marks.bytes() == old.byte_mark
    }

    fn admit(&mut self, records: &[Record], changes: &[Change]) -> anyhow::Result<String> {
        let mut column = lay(self.heap, records)?;
        column.change_all(changes)?;
        let answer = admit(
            self.records.as_mut_slice(),
            self.bytes.as_mut_slice(),
            &mut self.marks,
            column.records.as_slice(),
            column.bytes.as_slice(),
        );
        Ok(placed(self.heap, answer)?)
    }

    fn slice(&mut self, place: u64, first: u64, rows: u64) -> Result<String, AllocError> {
        let answer = slice(
            self.records.as_mut_slice(),
            self.bytes.as_slice(),
            &mut self.marks,
            Stretch { place, first, rows },
        );
        placed(self.heap, answer)
    }

    fn cell(&self, place: u64, row: u64) -> Result<String, AllocError> {
        match cell(
            self.records.as_slice(),
            self.bytes.as_slice(),
            &self.marks,
            place,
            row,
        ) {
            Ok(found) => held(self.heap, found),
            Err(fault) => refusal(self.heap, fault),
        }
    }

    fn show_marks(&self) -> Result<String, AllocError> {
        let r = self.marks.records();
        let b = self.marks.bytes();
        format!(in self.heap; "marks {r} {b}")
    }

    fn show_record(&self, i: usize) -> Result<String, AllocError> {
        match self.records.get(i) {
            Some(r) => format!(in self.heap; "{:?}", <[u64; 13]>::from(*r)),
            None => String::from_str(self.heap, "no record"),
        }
    }

    fn show_bytes(&self, from: usize, to: usize) -> Result<String, AllocError> {
        let part = self.bytes.as_slice().get(from..to).unwrap_or(&[]);
        let hex = hex::encode(self.heap, part)?;
        format!(in self.heap; "x{hex}")
    }

    fn lend(&mut self, records: usize, bytes: usize) -> Result<String, AllocError> {
        self.records.truncate(records);
        self.bytes.truncate(bytes);
        let r = self.records.len();
        let b = self.bytes.len();
        format!(in self.heap; "memory {r} {b}")
    }

    fn spoil(&mut self, i: usize, field: Field, value: u64) -> anyhow::Result<String> {
        set_field(&mut self.records, i, field, value)?;
        Ok(self.show_record(i)?)
    }

    // What a call answers, as text.
    pub fn call(&mut self, call: Call) -> anyhow::Result<String> {
        match call {
            Call::Admit(records, changes) => self.admit(records, changes),
            Call::Slice(place, first, rows) => Ok(self.slice(place, first, rows)?),
            Call::Cell(place, row) => Ok(self.cell(place, row)?),
            Call::Marks => Ok(self.show_marks()?),
            Call::Record(i) => Ok(self.show_record(i)?),
            Call::Bytes(from, to) => Ok(self.show_bytes(from, to)?),
            Call::Lend(records, bytes) => Ok(self.lend(records, bytes)?),
            Call::Spoil(i, field, value) => self.spoil(i, field, value),
        }
    }
}
