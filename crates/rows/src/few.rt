// At most N things, in places that are reserved once.
ghost use Rattle.std.specs.Prelude.{◌≡◌, ◌<◌, ◌≤◌, [], ◌∷◌, ◌++◌, length, take, IfOk, OnOk, OnErr};

use std::alloc::{AllocError, Global};
use std::marker::Model;

// There are N already.
#[derive(Clone, Copy, PartialEq, Eq, Debug)]
pub struct Full;

// At most N things; their places in the heap are reserved when the row is made.
#[derive(Drop)]
pub struct Few<T, const N: usize> {
    list: Vec<T>,
}

// Clauses see the things, in the order in which they were added.
impl<T, const N: usize> Model for Few<T, N> {
    ghost use Rattle.std.specs.Prelude.{◌≤◌, List, length, vec_capacity};

    ghost Value = { List T };

    ghost view = { λ f. f.list.items };

    ghost invariant = { λ f. (N ≤ vec_capacity f.list) × (length f.list.items ≤ N) };
}

impl<T, const N: usize> Few<T, N> {
    // None, with the places of N things reserved.
    pub fn new(heap: Global) -> Result<Few<T, N>, AllocError>
        ensures { IfOk result (λ f. f ≡ []) }
    {
        Ok(Few {
            list: Vec::with_capacity(heap, N)?,
        })
    }

    // How many there are.
    pub fn len(&self) -> usize
        ensures length { result ≡ length self.now }
        ensures few { length self.now ≤ N }
    {
        self.list.len()
    }

    // The things.
    pub fn as_slice(&self) -> &[T]
        ensures items { result.now ≡ self.now }
        ensures few { length self.now ≤ N }
    {
        &self.list
    }

    // Adds one behind the others, unless there are N.
    pub fn push(&mut self, item: T) -> Result<(), Full>
    where
        T: Drop,
        ensures ok { OnOk result (self.new ≡ self.old ++ item ∷ []) }
        ensures room { OnOk result (length self.old < N) }
        ensures err { OnErr result (self.new ≡ self.old) }
        ensures full { OnErr result (length self.old ≡ N) }
    {
        if self.list.len() >= N {
            return Err(Full);
        }
        self.list.push_reserved(item);
        Ok(())
    }

    // Keeps the first `count`.
    pub fn truncate(&mut self, count: usize)
    where
        T: Drop,
        ensures { self.new ≡ take count self.old }
    {
        self.list.truncate(count);
    }

    // Lets all of them go.
    pub fn clear(&mut self)
    where
        T: Drop,
        ensures { self.new ≡ [] }
    {
        self.list.clear();
    }
}
