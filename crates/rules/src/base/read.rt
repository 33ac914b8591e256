// Reading a base that stands.
ghost use Rattle.std.specs.Prelude.{◌≡◌};
ghost use Rattle.rules.specs.Declarations.{classes_of};
ghost use Rattle.rules.specs.Ruled.{rules_of};
ghost use Rattle.rules.specs.Bases.{sealed_classes, sealed_rules};

use super::Sealed;
use crate::classes::Classes;
use crate::rule::Rule;

impl Sealed {
    // The declared classes.
    pub fn classes(&self) -> &Classes
        ensures { classes_of result.now ≡ sealed_classes self.now }
    {
        &self.classes
    }

    // The rules, by their numbers.
    pub fn rules(&self) -> &[Rule]
        ensures { rules_of result.now ≡ sealed_rules self.now }
    {
        self.rules.as_slice()
    }
}
