// Declaring classes.
ghost use Rattle.std.specs.Prelude.{◌≡◌, [], IfOk};
ghost use Rattle.rules.specs.Attributes.{declared};
ghost use Rattle.rules.specs.Declarations.{classes_of, answer_declare, after_declare};
ghost use Rattle.rules.specs.Bases.{declaring_classes, entering_classes, entering_rules};

use super::{Declaring, Entering};
use crate::class::Class;
use crate::classes::Classes;
use crate::refusal::NotTaken;
use crate::rules::Rules;
use std::alloc::{AllocError, Global};

impl Declaring {
    // A new base.
    pub fn new(heap: Global) -> Result<Declaring, AllocError>
        ensures { IfOk result (λ b. declaring_classes b ≡ []) }
    {
        let classes = Classes::new(heap)?;
        let rules = Rules::new(heap)?;
        Ok(Declaring { classes, rules })
    }

    // The classes that are declared so far.
    pub fn classes(&self) -> &Classes
        ensures { classes_of result.now ≡ declaring_classes self.now }
    {
        &self.classes
    }

    // One class more.
    pub fn declare(&mut self, class: Class) -> Result<(), NotTaken>
        ensures answer { result ≡ answer_declare (declaring_classes self.old) (declared class) }
        ensures after { declaring_classes self.new ≡ after_declare (declaring_classes self.old) (declared class) }
    {
        self.classes.declare(class)
    }

    // No class is declared from here on.
    pub fn enter(self) -> Entering
        ensures classes { entering_classes result ≡ declaring_classes self }
        ensures rules { entering_rules result ≡ [] }
    {
        Entering {
            classes: self.classes,
            rules: self.rules,
        }
    }
}
