use crate::column::Column;
use records::{Kind, Record};
use std::alloc::{AllocError, Global};

/// The rows of a dictionary column, as keys of one width; None is a null row. The width is a number, as `names_column` takes it.
#[derive(Clone, Copy)]
pub struct Keys<'a> {
    pub width: u64,
    pub signed: bool,
    pub rows: &'a [Option<u64>],
}

/// The entries of a dictionary column: strings of bytes with offsets of one width, likewise; None is a null entry.
#[derive(Clone, Copy)]
pub struct Entries<'a> {
    pub width: u64,
    pub rows: &'a [Option<&'a str>],
}

// Zeros up to the next multiple of 8, which is where the next buffer begins.
fn align(bytes: &mut Vec<u8>) -> Result<u64, AllocError> {
    bytes.resize(bytes.len().next_multiple_of(8), 0)?;
    Ok(bytes.len() as u64)
}

// The `width` lowest bytes of n, the lowest first.
fn put_number(bytes: &mut Vec<u8>, width: u64, n: u64) -> Result<(), AllocError> {
    let end = bytes.len().saturating_add(width as usize);
    bytes.extend_from_slice(&n.to_le_bytes())?;
    bytes.resize(end, 0)
}

// A bit for each of eight rows that is not null, the first in the lowest.
fn valid_bits<T>(rows: &[Option<T>]) -> u8 {
    rows.iter()
        .rev()
        .fold(0u8, |byte, row| (byte << 1) | u8::from(row.is_some()))
}

fn put_bits<T>(bytes: &mut Vec<u8>, rows: &[Option<T>]) -> Result<u64, AllocError> {
    let place = align(bytes)?;
    for part in rows.chunks(8) {
        bytes.push(valid_bits(part))?;
    }
    Ok(place)
}

// The bitmap of the rows, where one of them is null: its place.
fn put_valid<T>(bytes: &mut Vec<u8>, rows: &[Option<T>]) -> Result<Option<u64>, AllocError> {
    if rows.iter().all(|row| row.is_some()) {
        Ok(None)
    } else {
        Ok(Some(put_bits(bytes, rows)?))
    }
}

impl<'a> Keys<'a> {
    fn put_numbers(self, bytes: &mut Vec<u8>) -> Result<u64, AllocError> {
        let place = align(bytes)?;
        for key in self.rows {
            put_number(bytes, self.width, key.unwrap_or(0))?;
        }
        Ok(place)
    }

    // The buffers, each at the next multiple of 8 with zeros before it, and the record that says where they lie.
    fn put(self, bytes: &mut Vec<u8>) -> Result<Record, AllocError> {
        let valid = put_valid(bytes, self.rows)?;
        let a = self.put_numbers(bytes)?;
        Ok(Record {
            root: 1,
            kind: Kind::Dictionary.into(),
            width: self.width,
            size: u64::from(self.signed),
            span: 2,
            length: self.rows.len() as u64,
            nulls: u64::from(valid.is_some()),
            v: valid.unwrap_or(0),
            a,
            ..Record::default()
        })
    }
}

impl<'a> Entries<'a> {
    fn put_offsets(self, bytes: &mut Vec<u8>) -> Result<u64, AllocError> {
        let place = align(bytes)?;
        // Each offset is the sum of the lengths so far, which `scan` would say no shorter.
        let mut end = 0u64;
        put_number(bytes, self.width, end)?;
        for entry in self.rows {
            end = end.wrapping_add(entry.unwrap_or("").len() as u64);
            put_number(bytes, self.width, end)?;
        }
        Ok(place)
    }

    fn put_text(self, bytes: &mut Vec<u8>) -> Result<u64, AllocError> {
        let place = align(bytes)?;
        for entry in self.rows {
            bytes.extend_from_slice(entry.unwrap_or("").as_bytes())?;
        }
        Ok(place)
    }

    fn put(self, bytes: &mut Vec<u8>) -> Result<Record, AllocError> {
        let valid = put_valid(bytes, self.rows)?;
        let a = self.put_offsets(bytes)?;
        let b = self.put_text(bytes)?;
        Ok(Record {
            kind: Kind::Bytes.into(),
            width: self.width,
            span: 1,
            length: self.rows.len() as u64,
            nulls: u64::from(valid.is_some()),
            v: valid.unwrap_or(0),
            a,
            b,
            count: (bytes.len() as u64).saturating_sub(b),
            ..Record::default()
        })
    }
}

/// A dictionary column outside any store.
pub fn lay_out(heap: Global, keys: Keys<'_>, entries: Entries<'_>) -> Result<Column, AllocError> {
    let mut bytes = Vec::new(heap);
    let keys = keys.put(&mut bytes)?;
    let entries = entries.put(&mut bytes)?;
    let records = vec![in heap; keys, entries]?;
    Ok(Column { records, bytes })
}
