ghost use Rattle.std.specs.Prelude.{◌≡◌, ◌+◌, ◌++◌, ◌<◌, length, IfSome};

use crate::hex::show_hex;
use crate::reads::Node;
use crate::show::show_fault;
use column_check::Column;
use records::{Kind, Record};
use std::alloc::AllocError;
use std::fmt::Write;

// A value that the memory does not hold. No well-formed column has one.
const ABSENT: &str = "?";

fn show_part(out: &mut String, part: Option<&[u8]>) -> Result<(), AllocError> {
    match part {
        Some(bytes) => show_hex(out, bytes),
        None => out.push_str(ABSENT),
    }
}

fn show_bit(out: &mut String, bit: Option<bool>) -> Result<(), AllocError> {
    match bit {
        Some(true) => out.push('1'),
        Some(false) => out.push('0'),
        None => out.push_str(ABSENT),
    }
}

// Trees of records, one after another, with the bytes that their places count in.
#[derive(Clone, Copy)]
struct Trees<'m> {
    records: &'m [Record],
    bytes: &'m [u8],
}

impl<'m> Trees<'m> {
    // The first tree, and those after it.
    fn split(self) -> Option<(Trees<'m>, Trees<'m>)>
        ensures whole { IfSome result (λ p. p.0.records.now ++ p.1.records.now ≡ self.entry.records.now) }
        ensures first { IfSome result (λ p. 0 < length p.0.records.now) }
        ensures rest { IfSome result (λ p. length p.0.records.now + length p.1.records.now ≡ length self.entry.records.now) }
    {
        let root = self.records.first()?;
        let end = (root.span as usize).clamp(1, self.records.len());
        let (first, rest) = self.records.split_at(end);
        Some((
            Trees {
                records: first,
                ..self
            },
            Trees {
                records: rest,
                ..self
            },
        ))
    }

    // The one row of the first tree that has the number `row`.
    #[cycle(show)]
    fn show_child(self, out: &mut String, row: Option<u64>) -> Result<(), AllocError> {
        match row {
            Some(row) => self.show_row(out, row),
            None => out.push_str(ABSENT),
        }
    }

    #[cycle(show)]
    fn show_list(self, out: &mut String, part: Option<(u64, u64)>) -> Result<(), AllocError> {
        let Some((first, last)) = part else {
            return out.push_str(ABSENT);
        };
        out.push('[')?;
        for row in first..last {
            if row > first {
                out.push(' ')?;
            }
            self.show_row(out, row)?;
        }
        out.push(']')
    }

    // The rows j of all the trees.
    #[cycle(show)]
    fn show_fields(self, out: &mut String, j: u64) -> Result<(), AllocError> {
        out.push('{')?;
        let mut left = self;
        while let Some((field, rest)) = left.split() {
            field.show_row(out, j)?;
            if !rest.records.is_empty() {
                out.push(' ')?;
            }
            left = rest;
        }
        out.push('}')
    }

    // One row of a tree.
    #[cycle(show)]
    fn show_row(self, out: &mut String, row: u64) -> Result<(), AllocError> {
        let [record, below @ ..] = self.records else {
            return out.push_str(ABSENT);
        };
        let node = Node {
            record: *record,
            bytes: self.bytes,
        };
        let below = Trees {
            records: below,
            ..self
        };
        let j = record.start.saturating_add(row);
        if node.is_null(j) == Some(true) {
            return out.push_str("null");
        }
        match Kind::try_from(record.kind) {
            Ok(Kind::Flat) => show_part(out, node.value(j)),
            Ok(Kind::Bits) => show_bit(out, node.bit(j)),
            Ok(Kind::Bytes) => show_part(out, node.text(j)),
            Ok(Kind::Dictionary) => below.show_child(out, node.number(j)),
            Ok(Kind::List) => below.show_list(out, node.offsets(j)),
            Ok(Kind::Struct) => below.show_fields(out, j),
            Ok(Kind::Runs) => below.show_child(out, node.run(j)),
            Err(_) => out.push_str(ABSENT),
        }
    }
}

/// Every row of the column at `place`, one to a line. A malformed column is refused as by `cell`.
pub fn show_rows(
    out: &mut String,
    records: &[Record],
    bytes: &[u8],
    place: u64,
) -> Result<(), AllocError> {
    let column = match Column::check(records, bytes, place) {
        Ok(column) => column,
        Err(broken) => return show_fault(out, broken.into()),
    };
    let length = column.root().length;
    let records = &records[column.place..];
    let Some((column, _)) = (Trees { records, bytes }).split() else {
        return Ok(());
    };
    for row in 0..length {
        write!(out, "{row} ")?;
        column.show_row(out, row)?;
        out.push('\n')?;
    }
    Ok(())
}
