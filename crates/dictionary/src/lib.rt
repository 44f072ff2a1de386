//! The merge of dictionaries: dictionary.rs of the crate that this is a port of, over tables that the caller lends.
#![tactic(auto)]

mod cases;
mod dictionaries;
mod equal;
mod interner;
mod mask;
mod merge;
mod piece;
mod pieces;
mod tables;

pub use cases::merge_cases;
pub use columns::Stretch;
pub use dictionaries::Dictionaries;
pub use interner::Interner;
pub use mask::compute_values_mask;
pub use merge::{MergeFault, merge_dictionary_values, should_merge_dictionary_values};
pub use piece::{Piece, PieceFault, dictionary_piece};
pub use pieces::{PiecesFault, merge_pieces};
pub use tables::Tables;
