// Looking a name up, and adding one.
ghost use Rattle.std.specs.Prelude.{◌≡◌, ◌<◌, ◌≤◌, max, [], ◌∷◌, length, take, codes, slice_index_or};
ghost use Rattle.std.specs.Prelude.{IfOk, IfSome, MatchOption};
ghost use Rattle.std.specs.Str.{bytes_eq};
ghost use Rattle.values.specs.Firsts.{first_from};
ghost use Rattle.values.specs.Spelling.{spelling};
ghost use Rattle.values.specs.Naming.{held, number_of, Named, Nameless, after_intern, answer_intern};

use super::Names;
use crate::name::Name;
use rows::few::Few;
use std::alloc::{AllocError, Global};

impl Names {
    // The names of a new rule base: `nil` alone.
    pub fn new(heap: Global) -> Result<Names, AllocError>
        ensures { IfOk result (λ n. held n ≡ codes "nil" ∷ []) }
    {
        let mut list = Few::new(heap)?;
        list.push(Name::new(b"nil").unwrap()).unwrap();
        Ok(Names { list })
    }

    // How many names there are.
    pub fn count(&self) -> usize
        ensures { result ≡ length (held self.now) }
    {
        self.list.len()
    }

    // The place of the name with exactly these bytes.
    fn place_of(&self, word: &[u8]) -> Option<usize>
        ensures place { result ≡ first_from (λ n. bytes_eq (spelling n) word.now) 0 self.now.list }
        ensures few { IfSome result (λ place. place < 256) }
    {
        self.list
            .as_slice()
            .iter()
            .position(|name| name.as_bytes() == word)
    }

    // The number of the name with exactly these bytes, or none where no name has them.
    pub fn find(&self, word: &[u8]) -> Option<u8>
        ensures value { result ≡ number_of (held self.now) word.now }
        ensures law { MatchOption result (Nameless (held self.now) word.now) (λ i. Named (held self.now) word.now i) }
    {
        self.place_of(word).map(|place| place as u8)
    }

    // The bytes of the name with this number, or none where there is none.
    pub fn name(&self, number: u8) -> Option<&[u8]>
        ensures { MatchOption result (length (held self.now) ≤ number) (λ b. (number < length (held self.now)) × (b.now ≡ slice_index_or (held self.now) number [])) }
    {
        self.list
            .as_slice()
            .get(number as usize)
            .map(Name::as_bytes)
    }

    // The number of the name with these bytes, which is added behind the others where it is new.
    // None where it is new and cannot be added: it has not 1 to 24 bytes, or there are 256 names.
    pub fn intern(&mut self, word: &[u8]) -> Option<u8>
        ensures answer { result ≡ answer_intern (held self.old) word.now }
        ensures after { held self.new ≡ after_intern (held self.old) word.now }
    {
        if let Some(number) = self.find(word) {
            return Some(number);
        }
        let number = self.list.len();
        self.list.push(Name::new(word)?).ok()?;
        Some(number as u8)
    }

    // Keeps the first `count` names, and `nil` in any case.
    pub fn keep(&mut self, count: usize)
        ensures { held self.new ≡ take (max count 1) (held self.old) }
    {
        self.list.truncate(count.max(1));
    }
}
