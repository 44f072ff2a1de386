ghost use Rattle.std.specs.Prelude.{◌≡◌, ◌<◌, length};
ghost use Rattle.format.specs.Trees.{rec_at};
ghost use Rattle.format.specs.Rules.{WellFormed};

use super::column::first_broken;
use records::Record;

/// The record of a column that breaks a rule, counted from 0 within the column.
#[derive(Clone, Copy, Debug, PartialEq, Eq)]
pub struct Broken {
    pub record: u64,
}

/// A column in memory that the check has passed: its records stand in `records` from `place` on, its buffers in `bytes`.
#[derive(Clone, Copy, Debug)]
pub struct Column<'r, 'm> {
    pub records: &'r [Record],
    pub bytes: &'m [u8],
    pub place: usize,
    pub ghost well: { WellFormed bytes.now records.now place },
}

impl<'r, 'm> Column<'r, 'm> {
    ghost use Rattle.column_check.specs.Checks.{Checks};

    /// The column at `place`, where none of its records breaks a rule. It may be asked of any memory.
    // Records and bytes come one by one, as they are lent; a `Column` holds both.
    pub fn check(records: &'r [Record], bytes: &'m [u8], place: u64) -> Result<Self, Broken>
        ensures { Checks result bytes.now records.now place }
    {
        match first_broken(records, bytes, place) {
            None => Ok(Column {
                records,
                bytes,
                place: place as usize,
            }),
            Some(record) => Err(Broken { record }),
        }
    }

    /// Its first record.
    pub fn root(&self) -> Record
        ensures below { self.now.place < length self.now.records.now }
        ensures is { result ≡ rec_at self.now.records.now self.now.place }
    {
        self.records[self.place]
    }
}
