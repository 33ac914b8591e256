// Looking a class up, and declaring one.
ghost use Rattle.std.specs.Prelude.{◌≡◌, [], length, IfOk};
ghost use Rattle.std.specs.Option.{option_map};
ghost use Rattle.rules.specs.Attributes.{declared};
ghost use Rattle.rules.specs.Declarations.{classes_of, find_class, answer_declare, after_declare};

use super::Classes;
use crate::class::Class;
use crate::refusal::NotTaken;
use rows::few::Few;
use std::alloc::{AllocError, Global};

impl Classes {
    // No classes yet.
    pub fn new(heap: Global) -> Result<Classes, AllocError>
        ensures { IfOk result (λ c. classes_of c ≡ []) }
    {
        Ok(Classes {
            list: Few::new(heap)?,
        })
    }

    // How many classes there are.
    pub fn count(&self) -> usize
        ensures { result ≡ length (classes_of self.now) }
    {
        self.list.len()
    }

    // The class with this symbol.
    pub fn find(&self, name: u8) -> Option<Class>
        ensures { option_map declared result ≡ find_class (classes_of self.now) name }
    {
        self.list
            .as_slice()
            .iter()
            .find(|class| class.name() == name)
            .copied()
    }

    // One class more.
    pub fn declare(&mut self, class: Class) -> Result<(), NotTaken>
        ensures answer { result ≡ answer_declare (classes_of self.old) (declared class) }
        ensures after { classes_of self.new ≡ after_declare (classes_of self.old) (declared class) }
    {
        if self.find(class.name()).is_some() {
            return Err(NotTaken::Twice);
        }
        self.list.push(class)?;
        Ok(())
    }
}
