ghost use Rattle.std.specs.Prelude.{◌≡◌};

/// How many records and how many bytes of the lent memories are in use. Marks move; they are not copied.
#[derive(Debug, Drop, PartialEq, Eq)]
pub struct Marks {
    pub(super) records: u64,
    pub(super) bytes: u64,
}

impl Marks {
    /// The record mark.
    pub fn records(&self) -> u64
        ensures { result ≡ self.now.records }
    {
        self.records
    }

    /// The byte mark.
    pub fn bytes(&self) -> u64
        ensures { result ≡ self.now.bytes }
    {
        self.bytes
    }
}

/// The marks of a store at set-up.
pub fn set_up() -> Marks
    ensures { (result.records ≡ 0) × (result.bytes ≡ 0) }
{
    Marks {
        records: 0,
        bytes: 0,
    }
}
