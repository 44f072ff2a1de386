//! A script of store calls: what its lines say, the columns that it describes,
//! and how an answer of the store is written.
//!
//! A line is words between blanks. One whose first word begins with `#`, or that
//! has no word, says nothing.
//!
//! | line | meaning |
//! |---|---|
//! | `memory RECORDS BYTES` | a new store over that much memory, all zero |
//! | `column NAME` | the lines up to `end` are an outside column, kept under the name |
//! | `record` and 13 numbers | inside a column: its next record, by the fields in order |
//! | `bytes HEX` | inside a column: its next bytes, two digits to each |
//! | `end` | the column is whole |
//! | `names NAME WIDTH WORD ..` | an outside column of names, `-` for a null row |
//! | `admit NAME` | the call, with the column of that name |
//! | `intern HASH WORD ..` | words made entries, under `fnv` or `lead`; `-` is absent, `""` empty |
//! | `slice PLACE FIRST ROWS` | the call |
//! | `cell PLACE ROW` | the call |
//! | `rows PLACE` | every row of a column, one to a line |
//! | `dump` | the marks, and the records and bytes below them |
//!
//! A row is written as `null`, as `x` and hex digits, as `0` or `1` for a bit, as
//! `[v v ..]` for a list and as `{v v ..}` for a struct.
#![tactic(auto)]

mod column;
mod dump;
mod hex;
mod intern;
mod layout;
mod mistake;
mod names;
mod parse;
mod reads;
mod rows;
mod show;
mod width;

pub use column::Column;
pub use dump::show_dump;
pub use hex::read_hex;
pub use intern::show_interned;
pub use mistake::{Form, Mistake};
pub use names::names_column;
pub use parse::{Call, Command, Hashing, Part, parse_line, parse_part};
pub use rows::show_rows;
pub use show::{show_cell, show_place};
pub use width::Width;
