use crate::hex::show_hex;
use records::Record;
use std::alloc::AllocError;
use std::fmt::Write;

// How many bytes a line shows.
const LINE: usize = 32;

fn show_record(out: &mut String, i: usize, r: Record) -> Result<(), AllocError> {
    write!(out, "record {i}")?;
    for n in <[u64; 13]>::from(r) {
        write!(out, " {n}")?;
    }
    out.push('\n')
}

fn show_records(out: &mut String, records: &[Record]) -> Result<(), AllocError> {
    for (i, r) in records.iter().enumerate() {
        show_record(out, i, *r)?;
    }
    Ok(())
}

// The last line may be shorter.
fn show_bytes(out: &mut String, bytes: &[u8]) -> Result<(), AllocError> {
    for (at, line) in (0..bytes.len()).step_by(LINE).zip(bytes.chunks(LINE)) {
        write!(out, "bytes {at} ")?;
        show_hex(out, line)?;
        out.push('\n')?;
    }
    Ok(())
}

/// The marks, and what lies below them.
pub fn show_dump(out: &mut String, records: &[Record], bytes: &[u8]) -> Result<(), AllocError> {
    let r = records.len();
    let b = bytes.len();
    writeln!(out, "marks {r} {b}")?;
    show_records(out, records)?;
    show_bytes(out, bytes)
}
