// Making a row of bytes, reading it, and adding to it.
ghost use Rattle.std.specs.Prelude.{◌≡◌, ◌<◌, ◌≤◌, [], ◌∷◌, ◌++◌, length, MatchOption, OnOk, OnErr};
ghost use Rattle.rows.specs.Shorts.{bytes_of};

use super::Short;
use crate::few::Full;

impl<const N: usize> Short<N> {
    // No bytes.
    pub fn new() -> Short<N>
        ensures { bytes_of result ≡ [] }
    {
        Short {
            bytes: [0; N],
            len: 0,
        }
    }

    // These bytes, or none where they are too many.
    pub fn from_slice(word: &[u8]) -> Option<Short<N>>
        ensures { MatchOption result (N < length word.now) (λ s. bytes_of s ≡ word.now) }
    {
        if word.len() > N {
            return None;
        }
        let mut bytes = [0; N];
        bytes[..word.len()].copy_from_slice(word);
        Some(Short {
            bytes,
            len: word.len(),
        })
    }

    // The bytes.
    pub fn as_slice(&self) -> &[u8]
        ensures bytes { result.now ≡ bytes_of self.now }
        ensures short { length result.now ≤ N }
    {
        &self.bytes[..self.len]
    }

    // Adds a byte behind the others, unless there are N.
    pub fn push(&mut self, byte: u8) -> Result<(), Full>
        ensures ok { OnOk result (bytes_of self.new ≡ bytes_of self.old ++ byte ∷ []) }
        ensures room { OnOk result (length (bytes_of self.old) < N) }
        ensures err { OnErr result (self.new ≡ self.old) }
        ensures full { OnErr result (length (bytes_of self.old) ≡ N) }
    {
        if self.len >= N {
            return Err(Full);
        }
        self.bytes[self.len] = byte;
        self.len += 1;
        Ok(())
    }
}
