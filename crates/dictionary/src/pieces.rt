ghost use Rattle.std.specs.Prelude.{◌≡◌, ◌≤◌, length, IfOk, MatchResult};
ghost use Rattle.dictionary.specs.declared.pieces.PiecesFault.TheVariants.{Merge};
ghost use Rattle.dictionary.specs.Pieces.{PiecesOk};
ghost use Rattle.dictionary.specs.Tables.{SameTables};
ghost use Rattle.dictionary.specs.Stretches.{pieces_of, MergesPieces};

use super::dictionaries::Dictionaries;
use super::merge::{MergeFault, merge_dictionary_values};
use super::piece::{Piece, PieceFault, dictionary_piece};
use super::tables::Tables;
use arrayvec::ArrayVec;
use columns::Stretch;
use hashes::Hash;
use records::Record;

/// Why pieces of columns are not merged.
#[derive(Clone, Copy, Debug, PartialEq, Eq)]
pub enum PiecesFault {
    /// There are over 64 of them.
    Crowd,
    /// One cannot be taken.
    Piece { input: u64, fault: PieceFault },
    /// Their entries cannot be merged.
    Merge { fault: MergeFault },
}

impl From<MergeFault> for PiecesFault {
    ghost from_gives = { λ f p. p ≡ Merge f };

    fn from(fault: MergeFault) -> PiecesFault {
        PiecesFault::Merge { fault }
    }
}

// The pieces of at most 64 stretches, or the first that cannot be taken.
fn take_pieces(
    records: &[Record],
    bytes: &[u8],
    inputs: &[Stretch],
) -> Result<ArrayVec<Piece, 64>, PiecesFault>
    ensures pieces { MatchResult result (λ v. pieces_of bytes.now records.now inputs.now ≡ Ok v.items) (λ f. pieces_of bytes.now records.now inputs.now ≡ Err f) }
    ensures ok { IfOk result (λ v. PiecesOk bytes.now v.items) }
{
    if inputs.len() > 64 {
        return Err(PiecesFault::Crowd);
    }
    let mut pieces = ArrayVec::new();
    for (i, stretch) in inputs.iter().enumerate() {
        let input = i as u64;
        let piece = dictionary_piece(records, bytes, *stretch).map_err(|fault| PiecesFault::Piece {
            input,
            fault,
        })?;
        pieces.push(piece);
    }
    Ok(pieces)
}

/// Merges the entries of pieces of dictionary columns in any memory, as `merge_dictionary_values` does; the columns are checked first. Their
/// types are not compared: the largest key is the first one's.
pub fn merge_pieces<H: Hash>(
    records: &[Record],
    bytes: &[u8],
    inputs: &[Stretch],
    hash: &mut H,
    tables: &mut Tables<'_>,
) -> Result<u64, PiecesFault>
    ensures merges { MergesPieces (pieces_of bytes.now records.now inputs.now) result (H.meaning hash.old) bytes.now (length tables.old.buckets.now) tables.new.keys.now tables.new.chosen.now }
    ensures lent { SameTables tables.old tables.new }
    ensures same { H.meaning hash.new ≡ H.meaning hash.old }
{
    let pieces = take_pieces(records, bytes, inputs)?;
    let pieces = pieces.as_slice();
    let from = Dictionaries { bytes, pieces };
    Ok(merge_dictionary_values(&from, hash, tables)?)
}
