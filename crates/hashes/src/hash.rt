ghost use Rattle.std.specs.Prelude.{◌≡◌, ℕ, List};

/// A hash of strings of bytes.
pub trait Hash {
    /// The meaning of a hash: a function from strings of bytes to 64-bit numbers.
    ghost meaning: { Self → List ℕ → ℕ };

    /// The number of a string. The call may change what the hash holds, since an implementation may keep state such as
    /// a cache, but it may not change its meaning.
    fn hash(&mut self, bytes: &[u8]) -> u64
        ensures value { result ≡ meaning self.old bytes.now }
        ensures same { meaning self.new ≡ meaning self.old };
}
