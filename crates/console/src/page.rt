// The bytes that a session prints.
ghost use Rattle.std.specs.Prelude.{◌≡◌, ◌++◌, ℕ, List, [], OnOk, IfSome};

use std::alloc::{AllocError, Global};
use std::fmt::Display;
use std::marker::Model;

// What was printed so far; clauses see the bytes.
#[derive(Drop)]
pub(crate) struct Page {
    bytes: Vec<u8>,
}

impl Model for Page {
    ghost Value = { List ℕ };

    ghost view = { λ p. p.bytes.items };
}

impl Page {
    // Nothing is printed yet.
    pub fn new(heap: Global) -> Page
        ensures { result ≡ [] }
    {
        Page {
            bytes: Vec::new(heap),
        }
    }

    // What its bytes are allocated from.
    pub fn heap(&self) -> Global {
        *self.bytes.allocator()
    }

    // Bytes as they are.
    pub fn write(&mut self, bytes: &[u8]) -> Result<(), AllocError>
        ensures { OnOk result (self.new ≡ self.old ++ bytes.now) }
    {
        self.bytes.extend_from_slice(bytes)
    }

    // What a value displays as.
    pub fn show<D: Display + Drop>(&mut self, value: D) -> Result<(), AllocError>
        ensures { OnOk result (IfSome (D.output value) (λ text. self.new ≡ self.old ++ text)) }
    {
        let text = value.to_string(self.heap())?;
        self.write(text.as_bytes())
    }

    // All that was printed.
    pub fn into_bytes(self) -> Vec<u8>
        ensures { result.items ≡ self }
    {
        self.bytes
    }
}
