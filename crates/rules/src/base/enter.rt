// Entering rules.
ghost use Rattle.std.specs.Prelude.{◌≡◌, length};
ghost use Rattle.rules.specs.Declarations.{classes_of};
ghost use Rattle.rules.specs.Ruled.{rule_of, rules_of};
ghost use Rattle.rules.specs.Sizes.{size_meant, size_of_all};
ghost use Rattle.rules.specs.Bases.{entering_classes, sealed_classes, entering_rules, sealed_rules, rule_named, answer_enter, after_enter};

use super::{Entering, Sealed};
use crate::classes::Classes;
use crate::refusal::NotTaken;
use crate::rule::Rule;
use crate::size::Size;

impl Entering {
    // The declared classes.
    pub fn classes(&self) -> &Classes
        ensures { classes_of result.now ≡ entering_classes self.now }
    {
        &self.classes
    }

    // The rules that are entered so far.
    pub fn rules(&self) -> &[Rule]
        ensures { rules_of result.now ≡ entering_rules self.now }
    {
        self.rules.as_slice()
    }

    // How many rules there are.
    pub fn count(&self) -> usize
        ensures { result ≡ length (entering_rules self.now) }
    {
        self.rules().len()
    }

    // How many tests, constants of choices and settings the rules have.
    pub fn size(&self) -> Size
        ensures { size_meant result ≡ size_of_all (entering_rules self.now) }
    {
        self.rules.size()
    }

    // Whether a rule has this name.
    pub fn has_rule(&self, name: u8) -> bool
        ensures { result ≡ rule_named (entering_rules self.now) name }
    {
        self.rules.has(name)
    }

    // One rule more.
    pub fn add(&mut self, rule: Rule) -> Result<(), NotTaken>
        ensures answer { result ≡ answer_enter (entering_rules self.old) (rule_of rule) }
        ensures after { entering_rules self.new ≡ after_enter (entering_rules self.old) (rule_of rule) }
        ensures classes { entering_classes self.new ≡ entering_classes self.old }
    {
        self.rules.add(rule)
    }

    // No rule is entered from here on.
    pub fn seal(self) -> Sealed
        ensures classes { sealed_classes result ≡ entering_classes self }
        ensures rules { sealed_rules result ≡ entering_rules self }
    {
        Sealed {
            classes: self.classes,
            rules: self.rules,
        }
    }
}
