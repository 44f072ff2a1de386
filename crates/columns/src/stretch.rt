ghost use Rattle.std.specs.Prelude.{◌≡◌, ◌+◌, ◌^◌, ◌<◌, nat_lt};
ghost use Rattle.format.specs.Moves.{window};

use records::Record;

/// Rows `first` to first + rows − 1 of the column at `place`.
#[derive(Clone, Copy, Debug, PartialEq, Eq)]
pub struct Stretch {
    pub place: u64,
    pub first: u64,
    pub rows: u64,
}

impl Stretch {
    /// Its rows do not all lie below `length`.
    pub fn is_outside(self, length: u64) -> bool
        ensures { result ≡ nat_lt length (self.first + self.rows) }
    {
        is_outside(length, self.first, self.rows)
    }

    /// The record r over these of its rows. It is public for the crates above, which test the stretch first.
    pub fn windowed(self, r: Record) -> Record
        requires { r.start + self.first < 2 ^ 64 }
        ensures { result ≡ window r self.first self.rows }
    {
        Record {
            start: r.start + self.first,
            length: self.rows,
            ..r
        }
    }
}

/// n things from number `first` on do not all lie below `end`. The check's tests of room say the contrary, in a line each of their own.
pub fn is_outside(end: u64, first: u64, n: u64) -> bool
    ensures { result ≡ nat_lt end (first + n) }
{
    first.checked_add(n).is_none_or(|last| end < last)
}
