use hex::FromHexError;
use std::alloc::AllocFailed;
use std::io;

/// Why a line is no vector.
#[derive(Clone, Copy, Debug, PartialEq, Eq)]
pub enum Mistake {
    /// Expected two words with one space between them.
    Words,
    /// Expected `-`, or hex digits, two to a byte.
    Bytes,
    /// Expected a number of at most 64 bits in hex.
    Number,
    /// The machine has no memory left.
    Exhausted,
}

impl From<FromHexError> for Mistake {
    fn from(e: FromHexError) -> Mistake {
        match e {
            FromHexError::OutOfMemory => Mistake::Exhausted,
            _ => Mistake::Bytes,
        }
    }
}

/// Why the run is no success.
#[derive(Debug, Drop)]
pub enum Failure {
    Line { number: usize, mistake: Mistake },
    /// The file has no vectors, and the run would show nothing.
    NoVectors,
    /// A hash gave a number other than the known one.
    Disagreement,
    /// The machine has no memory left.
    Exhausted,
    Io(io::Error),
}

// By hand: `main` prints its error by Debug, so the texts that `thiserror` asks of each variant would not be printed, and the cause that
// it keeps of a failed allocation would.
impl From<io::Error> for Failure {
    fn from(e: io::Error) -> Failure {
        Failure::Io(e)
    }
}

impl<T: Drop> From<AllocFailed<T>> for Failure {
    fn from(_e: AllocFailed<T>) -> Failure {
        Failure::Exhausted
    }
}
