//! The format, as definitions (specs/) and theorems about them (proofs/). The one function here is proved to have small columns that
//! the definitions get right.
#![tactic(auto)]

ghost use Rattle.format.specs.Examples.{Examples};

/// The examples of specs/Examples.antt hold.
pub fn worked_examples()
    ensures { Examples }
{}
