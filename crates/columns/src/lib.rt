//! Columns in memory that the check has passed: their values, single cells, and stretches of them.
#![tactic(auto)]

mod cells;
mod position;
mod stretch;

pub use cells::{Cell, find, key, leads_to_value, value};
pub use stretch::{Stretch, is_outside};
