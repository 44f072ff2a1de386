ghost use Rattle.std.specs.Prelude.{◌≡◌, Some};
ghost use Rattle.store.specs.Faults.{tell, name_of, fault_text};
ghost use Rattle.store.specs.declared.fault.Fault.TheVariants.{Malformed};

use column_check::Broken;
use std::error::Error;
use std::fmt;

/// Why a call is refused. `input` and `record` count from 0: the first input that offends, and the record within its column.
#[derive(Clone, Copy, Debug, PartialEq, Eq)]
pub enum Fault {
    Torn,
    NoInput,
    Crowd,
    Surplus,
    Malformed { input: u64, record: u64 },
    Ragged { input: u64 },
    Unlike { input: u64, record: u64 },
    Outside { input: u64 },
    Kind,
    Rows { record: u64 },
    RunEnds { record: u64 },
    Offsets { record: u64 },
    Scratch { record: u64 },
    Keys { record: u64 },
    Full,
    Unfinished,
}

impl Fault {
    /// The number of the refusal.
    pub fn number(self) -> u64
        ensures { result ≡ (tell self).number }
    {
        match self {
            Fault::Torn => 1,
            Fault::NoInput => 2,
            Fault::Crowd => 3,
            Fault::Surplus => 4,
            Fault::Malformed { .. } => 5,
            Fault::Ragged { .. } => 6,
            Fault::Unlike { .. } => 7,
            Fault::Outside { .. } => 8,
            Fault::Kind => 9,
            Fault::Rows { .. } => 10,
            Fault::RunEnds { .. } => 11,
            Fault::Offsets { .. } => 12,
            Fault::Scratch { .. } => 13,
            Fault::Keys { .. } => 14,
            Fault::Full => 15,
            Fault::Unfinished => 16,
        }
    }

    /// The input that offends, or 0, and not None: the table of refusals has a number, an input and a record for each.
    pub fn input(self) -> u64
        ensures { result ≡ (tell self).input }
    {
        match self {
            Fault::Malformed { input, .. } => input,
            Fault::Ragged { input } => input,
            Fault::Unlike { input, .. } => input,
            Fault::Outside { input } => input,
            _ => 0,
        }
    }

    /// The record that offends, or 0.
    pub fn record(self) -> u64
        ensures { result ≡ (tell self).at }
    {
        match self {
            Fault::Malformed { record, .. } => record,
            Fault::Unlike { record, .. } => record,
            Fault::Rows { record } => record,
            Fault::RunEnds { record } => record,
            Fault::Offsets { record } => record,
            Fault::Scratch { record } => record,
            Fault::Keys { record } => record,
            _ => 0,
        }
    }

    /// The name of the refusal.
    pub fn name(self) -> &'static str
        ensures { result.now ≡ name_of self }
    {
        match self {
            Fault::Torn => "torn",
            Fault::NoInput => "none",
            Fault::Crowd => "crowd",
            Fault::Surplus => "surplus",
            Fault::Malformed { .. } => "malformed",
            Fault::Ragged { .. } => "ragged",
            Fault::Unlike { .. } => "unlike",
            Fault::Outside { .. } => "outside",
            Fault::Kind => "kind",
            Fault::Rows { .. } => "rows",
            Fault::RunEnds { .. } => "run_ends",
            Fault::Offsets { .. } => "offsets",
            Fault::Scratch { .. } => "scratch",
            Fault::Keys { .. } => "keys",
            Fault::Full => "full",
            Fault::Unfinished => "unfinished",
        }
    }
}

// The number, the name, and where: `5 malformed input 0 record 1`.
impl fmt::Display for Fault {
    ghost output = { λ f. Some (fault_text f) };

    fn fmt<W: fmt::Write>(&self, f: &mut fmt::Formatter<W>) -> fmt::Result {
        let (number, name) = (self.number(), self.name());
        let (input, at) = (self.input(), self.record());
        write!(f, "{number} {name} input {input} record {at}")
    }
}

impl Error for Fault {}

// The columns that calls name one of are input 0.
impl From<Broken> for Fault {
    ghost from_gives = { λ e f. f ≡ Malformed 0 e.«record» };

    fn from(e: Broken) -> Fault {
        Fault::Malformed {
            input: 0,
            record: e.record,
        }
    }
}
