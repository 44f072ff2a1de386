// Changes to a column that keeps every rule.
use super::layout::Column;
use anyhow::Context;
use records::Record;

#[derive(Clone, Copy, Debug, PartialEq, Eq)]
pub enum Field {
    Root,
    Kind,
    Width,
    Logic,
    Size,
    Span,
    Start,
    Length,
    Nulls,
    V,
    A,
    B,
    Count,
}

#[derive(Clone, Copy)]
pub enum Change {
    // a field of the record with that number
    Set(usize, Field, u64),
    // the byte at that place
    Byte(usize, u8),
    // only so many bytes are left
    Bytes(usize),
    // only so many records are left
    Records(usize),
}

// By name: a number of the field would do the same in fewer lines, but only as long as `Field` has the order of `Record`.
fn with(r: Record, field: Field, value: u64) -> Record {
    match field {
        Field::Root => Record { root: value, ..r },
        Field::Kind => Record { kind: value, ..r },
        Field::Width => Record { width: value, ..r },
        Field::Logic => Record { logic: value, ..r },
        Field::Size => Record { size: value, ..r },
        Field::Span => Record { span: value, ..r },
        Field::Start => Record { start: value, ..r },
        Field::Length => Record { length: value, ..r },
        Field::Nulls => Record { nulls: value, ..r },
        Field::V => Record { v: value, ..r },
        Field::A => Record { a: value, ..r },
        Field::B => Record { b: value, ..r },
        Field::Count => Record { count: value, ..r },
    }
}

pub fn set_field(
    records: &mut Vec<Record>,
    i: usize,
    field: Field,
    value: u64,
) -> anyhow::Result<()> {
    let r = records.get_mut(i).context("a change names no record")?;
    *r = with(*r, field, value);
    Ok(())
}

fn set_byte(bytes: &mut Vec<u8>, i: usize, value: u8) -> anyhow::Result<()> {
    let byte = bytes.get_mut(i).context("a change names no byte")?;
    *byte = value;
    Ok(())
}

impl Column {
    fn change(&mut self, change: Change) -> anyhow::Result<()> {
        match change {
            Change::Set(i, field, value) => set_field(&mut self.records, i, field, value)?,
            Change::Byte(i, value) => set_byte(&mut self.bytes, i, value)?,
            Change::Bytes(n) => self.bytes.truncate(n),
            Change::Records(n) => self.records.truncate(n),
        }
        Ok(())
    }

    pub fn change_all(&mut self, changes: &[Change]) -> anyhow::Result<()> {
        for change in changes {
            self.change(*change)?;
        }
        Ok(())
    }
}
