// How much of the limits of a base a rule uses, and how specific it is.
ghost use Rattle.std.specs.Prelude.{◌≡◌};
ghost use Rattle.rules.specs.Ruled.{rule_of};
ghost use Rattle.rules.specs.Sizes.{size_meant, size_of};
ghost use Rattle.rules.specs.Specificity.{specificity_of};

use super::Rule;
use crate::size::{Size, constants_in, settings_in, tests_in};
use crate::specificity::conditions_count;

impl Rule {
    // How many tests, constants of choices and settings the rule has.
    pub fn size(&self) -> Size
        ensures { size_meant result ≡ size_of (rule_of self.now) }
    {
        Size {
            tests: tests_in(&self.conditions),
            constants: constants_in(&self.conditions),
            settings: settings_in(&self.actions),
        }
    }

    // How specific the rule is: what its conditions count.
    pub fn specificity(&self) -> usize
        ensures { result ≡ specificity_of (rule_of self.now).conditions }
    {
        conditions_count(&self.conditions)
    }
}
