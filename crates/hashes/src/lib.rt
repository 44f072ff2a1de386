//! What a hash is, and two of them. Each is proved to give the number of its definition in `specs/Hashes.antt`.
#![tactic(auto)]

mod fnv;
mod hash;
mod lead;

pub use fnv::Fnv1a;
pub use hash::Hash;
pub use lead::Lead;
