// Making a name of bytes, and reading its bytes.
ghost use Rattle.std.specs.Prelude.{◌≡◌, false, MatchOption};
ghost use Rattle.values.specs.Spelling.{spelling, nameable};

use super::Name;
use rows::short::Short;

impl Name {
    // The name with these bytes, or none where they are too many, or none at all.
    pub fn new(word: &[u8]) -> Option<Name>
        ensures { MatchOption result (nameable word.now ≡ false) (λ n. spelling n ≡ word.now) }
    {
        if word.is_empty() {
            return None;
        }
        Some(Name {
            bytes: Short::from_slice(word)?,
        })
    }

    // The bytes of the name.
    pub fn as_bytes(&self) -> &[u8]
        ensures { result.now ≡ spelling self.now }
    {
        self.bytes.as_slice()
    }
}
