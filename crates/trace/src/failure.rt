use script::Mistake;
use std::io;
use thiserror::Error;

/// Why the program ends before the end of its script.
#[derive(Debug, Drop, Error)]
pub enum Failure {
    #[error("line {line}: {mistake}")]
    Script { line: u64, mistake: Mistake },
    #[error("trace: {0}")]
    Io(#[from] io::Error),
}
