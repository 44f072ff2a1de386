//! Numbers, bitmaps and writes of one memory. The functions are public for the crates above, which meet their `requires`.
#![tactic(auto)]

mod index;
mod memory;

pub use index::{Index, largest_of};
pub use memory::{bit_at, copy_up, next_place, put_slice, put_zeros, read_little, write_little};
