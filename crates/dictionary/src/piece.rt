ghost use Rattle.std.specs.Prelude.{◌≡◌, ◌+◌, ◌<◌, [], ◌∷◌, length, ◌==◌};
ghost use Rattle.format.specs.Rules.{both, one_of};
ghost use Rattle.dictionary.specs.declared.piece.PieceFault.TheVariants.{Malformed};
ghost use Rattle.dictionary.specs.Pieces.{PieceContract};

use column_check::{Broken, Column, record_at};
use columns::Stretch;
use records::{Kind, Record};

/// A piece of a dictionary column: the dictionary's record, with the piece for its window, and the record of its entries.
#[derive(Clone, Copy, Debug, Default, PartialEq, Eq)]
pub struct Piece {
    pub keys: Record,
    pub entries: Record,
}

/// Why a piece of a column cannot be taken.
#[derive(Clone, Copy, Debug, PartialEq, Eq)]
pub enum PieceFault {
    /// A record of the column breaks a rule.
    Malformed { record: u64 },
    /// The stretch lies outside the column.
    Outside,
    /// The column is no dictionary over flat or byte entries.
    Kind,
}

impl From<Broken> for PieceFault {
    ghost from_gives = { λ b f. f ≡ Malformed b.record };

    fn from(broken: Broken) -> PieceFault {
        PieceFault::Malformed {
            record: broken.record,
        }
    }
}

// A dictionary over flat or byte entries.
fn is_leafed(keys: Record, entries: Record) -> bool
    ensures { result ≡ both (keys.kind == 4) (one_of entries.kind (1 ∷ 3 ∷ [])) }
{
    matches!(Kind::try_from(keys.kind), Ok(Kind::Dictionary))
        && matches!(Kind::try_from(entries.kind), Ok(Kind::Flat | Kind::Bytes))
}

/// The rows of a stretch, as a piece; the column is checked. Records and bytes come one by one, as they are lent.
pub fn dictionary_piece(
    records: &[Record],
    bytes: &[u8],
    stretch: Stretch,
) -> Result<Piece, PieceFault>
    ensures { PieceContract result bytes.now records.now stretch.place stretch.first stretch.rows }
{
    let column = Column::check(records, bytes, stretch.place)?;
    let keys = column.root();
    if stretch.is_outside(keys.length) {
        return Err(PieceFault::Outside);
    }
    let entries = record_at(records, column.place + 1);
    if !is_leafed(keys, entries) {
        return Err(PieceFault::Kind);
    }
    Ok(Piece {
        keys: stretch.windowed(keys),
        entries,
    })
}
