ghost use Rattle.dictionary.specs.Pieces.{PiecesOk};

use super::piece::Piece;
use columns::value;
use records::Slot;

/// Pieces of dictionaries, one for each input, over the bytes that they lie in. Each piece keeps its rules. A merge takes at most 64 pieces,
/// and interning any number.
#[derive(Clone, Copy)]
pub struct Dictionaries<'m> {
    pub bytes: &'m [u8],
    pub pieces: &'m [Piece],
    pub ghost ok: { PiecesOk bytes.now pieces.now },
}

impl<'m> Dictionaries<'m> {
    ghost use Rattle.std.specs.Prelude.{◌≡◌};
    ghost use Rattle.interning.specs.Merging.{value_of};
    ghost use Rattle.dictionary.specs.Pieces.{seen};
    ghost use Rattle.dictionary.specs.Dictionaries.{taken, HasSlot};

    // The value of a slot, which is to be one of theirs: a slot is a plain pair of numbers, so its type cannot say it.
    pub(super) fn value(&self, slot: Slot) -> Option<&'m [u8]>
        requires { HasSlot self.now slot }
        ensures { seen result ≡ value_of (taken self.now) slot }
    {
        value(
            self.bytes,
            self.pieces[slot.input as usize].entries,
            slot.entry,
        )
    }
}
