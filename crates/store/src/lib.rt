//! The store: record memory and byte memory that the caller lends, two marks, and the calls on them. No call allocates.
#![tactic(auto)]

mod calls;
mod cases;
mod fault;
mod marks;

pub use calls::{admit, cell, slice};
pub use cases::worked_cases;
pub use columns::{Cell, Stretch};
pub use fault::Fault;
pub use marks::{Marks, set_up};
