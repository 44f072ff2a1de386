ghost use Rattle.std.specs.Prelude.{◌≡◌, ◌+◌, ◌-◌, ◌*◌, ◌/◌, ◌<◌, ◌≤◌, true, false, not, ◌⊎◌, [], length, take, drop};
ghost use Rattle.format.specs.Trees.{rec_at};
ghost use Rattle.format.specs.Meaning.{kind_of, row_of};
ghost use Rattle.format.specs.Rules.{both};
ghost use Rattle.format.specs.Cells.{found, leads, leads_on};
ghost use Rattle.columns.specs.Held.{held, shown, value_row, key_at};
ghost use Rattle.columns.specs.Readable.{Readable};

use super::position::Position;
use column_check::Column;
use records::{Kind, Record};
use std::ops::ControlFlow;

/// One row: null, a bit, or the part of the byte memory that holds the value, with its place there.
#[derive(Clone, Copy, Debug, PartialEq, Eq)]
pub enum Cell<'m> {
    Null,
    Bit(bool),
    Bytes { place: u64, part: &'m [u8] },
}

// Kind 1, 2 or 3.
fn has_values(kind: u64) -> bool
    ensures { result ≡ leads_on (kind_of kind) false }
{
    matches!(
        Kind::try_from(kind),
        Ok(Kind::Flat | Kind::Bits | Kind::Bytes)
    )
}

// A kind whose keys or runs lead on to its child.
fn leads_further(kind: u64) -> bool
    ensures { result ≡ both (leads_on (kind_of kind) true) (not (leads_on (kind_of kind) false)) }
{
    matches!(Kind::try_from(kind), Ok(Kind::Dictionary | Kind::Runs))
}

/// Keys and runs lead from the record at q to kind 1, 2 or 3.
pub fn leads_to_value(records: &[Record], q: usize) -> bool
    ensures { result ≡ leads (drop q records.now) }
{
    records
        .iter()
        .skip(q)
        .find(|r| !leads_further(r.kind))
        .is_some_and(|r| has_values(r.kind))
}

/// Row `row` of a checked column, through keys and runs. It is public for the store, which has tested the row.
pub fn find<'m>(column: &Column<'_, 'm>, row: u64) -> Cell<'m>
    requires low { row < (rec_at column.now.records.now column.now.place).length }
    ensures { held result ≡ shown column.now.bytes.now (found column.now.bytes.now (drop column.now.place column.now.records.now) row) }
{
    // The row changes with each record; a fold's closure would need as its contract what this loop's invariant says.
    let mut i = row;
    for r in &column.records[column.place..] {
        match Position::of_row(column.bytes, *r, i).look() {
            ControlFlow::Break(cell) => return cell,
            ControlFlow::Continue(row) => i = row,
        }
    }
    Cell::Null
}

/// Row i of a flat or byte record: absent, or a string of bytes. It is public for the dictionary merge, which reads checked columns; it
/// takes no other kind, so that it stays short in the merge's loop.
// It asks `Readable`, as `key` does: a position made by the caller would ask the same of it.
pub fn value(bytes: &[u8], r: Record, i: u64) -> Option<&[u8]>
    requires kind { (r.kind ≡ 1) ⊎ (r.kind ≡ 3) }
    requires readable { Readable bytes.now r (r.start + i) }
    ensures { value_row result ≡ row_of bytes.now r (λ k. []) i }
{
    let position = Position::of_row(bytes, r, i);
    if position.is_null() {
        return None;
    }
    let range = match Kind::try_from(r.kind) {
        Ok(Kind::Flat) => position.flat(),
        _ => position.text(),
    };
    Some(&bytes[range])
}

/// The key of row i of a dictionary record; None where the row is null. It is public for the dictionary merge, which reads checked columns.
pub fn key(bytes: &[u8], r: Record, i: u64) -> Option<u64>
    requires kind { r.kind ≡ 4 }
    requires readable { Readable bytes.now r (r.start + i) }
    ensures { result ≡ key_at bytes.now r i }
{
    let position = Position::of_row(bytes, r, i);
    if position.is_null() {
        None
    } else {
        Some(position.key())
    }
}
