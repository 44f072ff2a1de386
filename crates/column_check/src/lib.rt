//! The check of a column in memory.
#![tactic(auto)]

mod checked;
mod column;
mod rules;
mod table;

pub use checked::{Broken, Column};
pub use column::record_at;
pub use rules::is_null;
