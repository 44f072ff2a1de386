use std::alloc::AllocError;
use thiserror::Error;

/// A kind of line, which has a number of words of its own. It is written as such a line is.
#[derive(Clone, Copy, Debug, PartialEq, Eq, Error)]
pub enum Form {
    #[error("memory RECORDS BYTES")]
    Memory,
    #[error("column NAME")]
    Column,
    #[error("record and 13 numbers")]
    Record,
    #[error("bytes HEX")]
    Bytes,
    #[error("end")]
    End,
    #[error("names NAME WIDTH WORD ..")]
    Names,
    #[error("admit NAME")]
    Admit,
    #[error("intern HASH WORD ..")]
    Intern,
    #[error("slice PLACE FIRST ROWS")]
    Slice,
    #[error("cell PLACE ROW")]
    Cell,
    #[error("rows PLACE")]
    Rows,
    #[error("dump")]
    Dump,
}

/// Why a line of a script is not carried out.
#[derive(Clone, Copy, Debug, PartialEq, Eq, Error)]
pub enum Mistake {
    /// The first word is none of the commands.
    #[error("expected memory, column, names, admit, intern, slice, cell, rows or dump")]
    Unknown,
    /// Too few words, or too many.
    #[error("expected {0}")]
    Words(Form),
    #[error("expected a number")]
    NoNumber,
    #[error("expected hex digits, two to a byte")]
    NoHex,
    #[error("expected a width of 1, 2, 4 or 8")]
    NoWidth,
    #[error("expected fewer different names")]
    TooManyNames,
    #[error("expected fnv or lead")]
    NoHash,
    /// The words of a line are too many for one column.
    #[error("expected words that fit into one column")]
    NoFit,
    /// A line that has no place inside a column, or the end of the script there.
    #[error("expected record, bytes or end")]
    InColumn,
    #[error("expected the name of a column")]
    NoColumn,
    #[error("expected memory first")]
    NoMemory,
    #[error("expected at most 16777216 records and 1073741824 bytes")]
    TooLarge,
    /// The machine has no memory left.
    #[error("out of memory")]
    Exhausted(#[from(alloc)] AllocError),
}
