use hashes::Hash;
use std::io;

/// How many strings a hash was tried on, and how many of its numbers were the known ones.
#[derive(Clone, Copy, Debug, Default, PartialEq, Eq)]
pub struct Tally {
    pub tried: usize,
    pub agreed: usize,
}

impl Tally {
    pub fn all_agree(&self) -> bool {
        self.agreed == self.tried
    }

    /// Tries one string, and prints its numbers where they differ.
    pub fn compare<H: Hash>(
        &mut self,
        rt: &HostRuntime,
        hash: &mut H,
        bytes: &[u8],
        known: u64,
    ) -> io::Result<()> {
        let number = hash.hash(bytes);
        self.tried = self.tried.saturating_add(1);
        if number == known {
            self.agreed = self.agreed.saturating_add(1);
            return Ok(());
        }
        println!(rt; "{bytes:?}: {number:016x}, and not {known:016x}")
    }
}
