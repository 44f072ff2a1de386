use crate::hex::show_hex;
use std::alloc::AllocError;
use std::fmt::Write;
use store::{Cell, Fault};

/// The line of a refusal.
pub fn show_fault(out: &mut String, fault: Fault) -> Result<(), AllocError> {
    writeln!(out, "refused {fault}")
}

/// The line of a call that makes a column.
pub fn show_place(out: &mut String, answer: Result<u64, Fault>) -> Result<(), AllocError> {
    match answer {
        Ok(place) => writeln!(out, "place {place}"),
        Err(fault) => show_fault(out, fault),
    }
}

/// The line of a read of one cell.
pub fn show_cell(out: &mut String, answer: Result<Cell<'_>, Fault>) -> Result<(), AllocError> {
    match answer {
        Ok(Cell::Null) => writeln!(out, "null"),
        Ok(Cell::Bit(bit)) => writeln!(out, "bit {}", u8::from(bit)),
        Ok(Cell::Bytes { place, part }) => {
            write!(out, "bytes {place} ")?;
            show_hex(out, part)?;
            out.push('\n')
        }
        Err(fault) => show_fault(out, fault),
    }
}
