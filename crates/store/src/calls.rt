ghost use Rattle.std.specs.Prelude.{◌≡◌, ◌+◌, ◌-◌, ◌/◌, ◌^◌, ◌<◌, ◌≤◌, true, ◌∷◌, map, length, take, replicate};
ghost use Rattle.std.specs.List.{AllByRecursion};
ghost use Rattle.numbers.specs.Puts.{put, part};
ghost use Rattle.format.specs.Trees.{rec_at};
ghost use Rattle.format.specs.Moves.{moved, sliced};
ghost use Rattle.store.specs.Stores.{store, torn, standing};
ghost use Rattle.store.specs.Calls.{told_cell, SliceSettles, AdmitSettles, cell_told};
ghost use Rattle.store.specs.Promises.{SliceContract, AdmitContract, CellContract};
ghost use Rattle.store.specs.Movable.{Movable};

use super::fault::Fault;
use super::marks::Marks;
use column_check::Column;
use columns::{Cell, Stretch, find, is_outside, leads_to_value};
use numbers::{copy_up, next_place, put_slice, put_zeros};
use records::{Kind, Record};

// Records, bytes and marks stay parameters of each call: `slice` and `cell` only read the bytes, so that a cell may be held meanwhile.
fn is_torn(records: &[Record], bytes: &[u8], marks: &Marks) -> bool
    ensures { result ≡ torn (store records.now bytes.now marks.now) }
{
    marks.records > records.len() as u64
        || marks.bytes > bytes.len() as u64
        || records.len() > 4294967295
        || bytes.len() > 4294967295
}

// A slice of the column whose first record is r, at `at`: its records once more, the first over the rows of the stretch.
#[tactic(auto, using(crate::proofs::Copies::slice_written))]
fn write_slice(records: &mut [Record], r: Record, s: Stretch, at: usize)
    requires head { r ≡ rec_at (take at records.old) s.place }
    requires some { 1 ≤ r.span }
    requires below { s.place + r.span ≤ at }
    requires room { at + r.span ≤ length records.old }
    requires fits { r.start + s.first < 2 ^ 64 }
    ensures { records.new ≡ put at (sliced (take at records.old) s.place s.first s.rows) records.old }
{
    records[at] = s.windowed(r);
    copy_up(records, s.place as usize + 1, r.span as usize - 1, at + 1);
}

// What `slice` settles. The public call adds what that means for rows, so its contract is longer and its code is this.
fn make_slice(
    records: &mut [Record],
    bytes: &[u8],
    marks: &mut Marks,
    s: Stretch,
) -> Result<u64, Fault>
    ensures { SliceSettles result (store records.old bytes.now marks.old) (store records.new bytes.now marks.new) s.place s.first s.rows }
{
    if is_torn(records, bytes, marks) {
        return Err(Fault::Torn);
    }
    let at = marks.records as usize;
    let r = Column::check(&records[..at], &bytes[..marks.bytes as usize], s.place)?.root();
    if s.is_outside(r.length) {
        return Err(Fault::Outside { input: 0 });
    }
    if is_outside(records.len() as u64, at as u64, r.span) {
        return Err(Fault::Full);
    }
    write_slice(records, r, s, at);
    marks.records += r.span;
    Ok(at as u64)
}

/// A column over a stretch of another, with the same places. It answers the new column's place.
pub fn slice(
    records: &mut [Record],
    bytes: &[u8],
    marks: &mut Marks,
    s: Stretch,
) -> Result<u64, Fault>
    ensures { SliceContract result (store records.old bytes.now marks.old) (store records.new bytes.now marks.new) s.place s.first s.rows }
{
    make_slice(records, bytes, marks, s)
}

// A record whose used places lie d bytes further on.
fn moved_by(r: Record, d: u64) -> Record
    requires { Movable d r }
    ensures { result ≡ moved d r }
{
    let v = if r.nulls == 1 { d + r.v } else { r.v };
    let a = if r.kind == u64::from(Kind::Struct) {
        r.a
    } else {
        d + r.a
    };
    let b = if r.kind == u64::from(Kind::Bytes) {
        d + r.b
    } else {
        r.b
    };
    Record { v, a, b, ..r }
}

// Records whose used places then lie d bytes further on.
fn move_all(records: &mut [Record], d: u64)
    requires { AllByRecursion (Movable d) records.old }
    ensures { records.new ≡ map (moved d) records.old }
{
    for r in records.iter_mut() {
        *r = moved_by(*r, d);
    }
}

// The records of an outside column, moved along.
fn write_moved(records: &mut [Record], column: &[Record], d: u64, at: usize)
    requires room { at + length column.now ≤ length records.old }
    requires movable { AllByRecursion (Movable d) column.now }
    ensures { records.new ≡ put at (map (moved d) column.now) records.old }
{
    let new = &mut records[at..at + column.len()];
    new.copy_from_slice(column);
    move_all(new, d);
}

// Zeros from `at` up to `base`, and then the data.
fn write_data(bytes: &mut [u8], source: &[u8], at: usize, base: usize)
    requires ahead { at ≤ base }
    requires room { base + length source.now ≤ length bytes.old }
    ensures { bytes.new ≡ put base source.now (put at (replicate (base - at) 0) bytes.old) }
{
    put_zeros(bytes, at, base - at);
    put_slice(bytes, base, source);
}

// What `admit` settles, likewise.
fn bring_in(
    records: &mut [Record],
    bytes: &mut [u8],
    marks: &mut Marks,
    column: &[Record],
    source: &[u8],
) -> Result<u64, Fault>
    ensures { AdmitSettles result (store records.old bytes.old marks.old) (store records.new bytes.new marks.new) column.now source.now }
{
    if is_torn(records, bytes, marks) {
        return Err(Fault::Torn);
    }
    let span = Column::check(column, source, 0)?.root().span;
    let at = marks.records;
    if is_outside(records.len() as u64, at, span) {
        return Err(Fault::Full);
    }
    let base = next_place(marks.bytes);
    if is_outside(bytes.len() as u64, base, source.len() as u64) {
        return Err(Fault::Full);
    }
    write_moved(records, &column[..span as usize], base, at as usize);
    write_data(bytes, source, marks.bytes as usize, base as usize);
    marks.records = at + span;
    marks.bytes = base + source.len() as u64;
    Ok(at)
}

/// An outside column comes in, with all its bytes. It answers the column's place.
pub fn admit(
    records: &mut [Record],
    bytes: &mut [u8],
    marks: &mut Marks,
    column: &[Record],
    source: &[u8],
) -> Result<u64, Fault>
    ensures { AdmitContract result (store records.old bytes.old marks.old) (store records.new bytes.new marks.new) column.now source.now }
{
    bring_in(records, bytes, marks, column, source)
}

// What `cell` answers, likewise. Place and row stay two numbers: nothing is computed from the pair.
fn read_cell<'m>(
    records: &[Record],
    bytes: &'m [u8],
    marks: &Marks,
    place: u64,
    row: u64,
) -> Result<Cell<'m>, Fault>
    ensures { told_cell result ≡ cell_told (store records.now bytes.now marks.now) place row }
{
    if is_torn(records, bytes, marks) {
        return Err(Fault::Torn);
    }
    let standing = &records[..marks.records as usize];
    let written = &bytes[..marks.bytes as usize];
    let column = Column::check(standing, written, place)?;
    if row >= column.root().length {
        return Err(Fault::Outside { input: 0 });
    }
    if !leads_to_value(standing, column.place) {
        return Err(Fault::Kind);
    }
    Ok(find(&column, row))
}

/// One row of a column, through keys and runs: null, a bit, or the part of the byte memory that holds the value.
#[tactic(auto, using(crate::proofs::Cells::cell_promise))]
pub fn cell<'m>(
    records: &[Record],
    bytes: &'m [u8],
    marks: &Marks,
    place: u64,
    row: u64,
) -> Result<Cell<'m>, Fault>
    ensures { CellContract result (store records.now bytes.now marks.now) place row }
{
    read_cell(records, bytes, marks, place, row)
}
