ghost use Rattle.std.specs.Prelude.{◌≡◌};
ghost use Rattle.records.specs.Kinds.{kind_numbered, number_of};

/// What the rows of a column are, and how its buffers hold them.
#[derive(Clone, Copy, Debug, PartialEq, Eq)]
pub enum Kind {
    /// Values of one width.
    Flat = 1,
    Bits = 2,
    /// Strings of bytes, by offsets.
    Bytes = 3,
    /// Keys to the rows of a child.
    Dictionary = 4,
    /// Stretches of a child's rows, by offsets.
    List = 5,
    Struct = 8,
    /// Run ends over the rows of a child.
    Runs = 9,
}

/// A number that no kind has.
#[derive(Clone, Copy, Debug, PartialEq, Eq)]
pub struct UnknownKind(pub u64);

impl TryFrom<u64> for Kind {
    type Error = UnknownKind;

    ghost try_from_gives = { λ n r. r ≡ kind_numbered n };

    fn try_from(number: u64) -> Result<Self, UnknownKind> {
        match number {
            1 => Ok(Kind::Flat),
            2 => Ok(Kind::Bits),
            3 => Ok(Kind::Bytes),
            4 => Ok(Kind::Dictionary),
            5 => Ok(Kind::List),
            8 => Ok(Kind::Struct),
            9 => Ok(Kind::Runs),
            _ => Err(UnknownKind(number)),
        }
    }
}

impl From<Kind> for u64 {
    ghost from_gives = { λ k n. n ≡ number_of k };

    fn from(kind: Kind) -> u64 {
        kind as u64
    }
}
