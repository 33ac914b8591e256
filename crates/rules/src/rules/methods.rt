// Reading the rules of a base, and one rule more.
ghost use Rattle.std.specs.Prelude.{◌≡◌, [], IfOk};
ghost use Rattle.rules.specs.Ruled.{rule_of, rules_of};
ghost use Rattle.rules.specs.Sizes.{size_meant, size_of_all};
ghost use Rattle.rules.specs.Bases.{rules_held, rule_named, answer_enter, after_enter};

use super::Rules;
use crate::refusal::NotTaken;
use crate::rule::Rule;
use crate::size::Size;
use rows::few::Few;
use std::alloc::{AllocError, Global};

impl Rules {
    // No rules yet.
    pub(crate) fn new(heap: Global) -> Result<Rules, AllocError>
        ensures { IfOk result (λ r. rules_held r ≡ []) }
    {
        Ok(Rules {
            list: Few::new(heap)?,
            size: Size::default(),
        })
    }

    // The rules, by their numbers.
    pub(crate) fn as_slice(&self) -> &[Rule]
        ensures { rules_of result.now ≡ rules_held self.now }
    {
        self.list.as_slice()
    }

    // How much of the limits of a base the rules use.
    pub(crate) fn size(&self) -> Size
        ensures { size_meant result ≡ size_of_all (rules_held self.now) }
    {
        self.size
    }

    // Whether a rule has this name.
    pub(crate) fn has(&self, name: u8) -> bool
        ensures { result ≡ rule_named (rules_held self.now) name }
    {
        self.list.as_slice().iter().any(|rule| rule.name == name)
    }

    // One rule more.
    pub(crate) fn add(&mut self, rule: Rule) -> Result<(), NotTaken>
        ensures answer { result ≡ answer_enter (rules_held self.old) (rule_of rule) }
        ensures after { rules_held self.new ≡ after_enter (rules_held self.old) (rule_of rule) }
    {
        if self.has(rule.name) {
            return Err(NotTaken::Twice);
        }
        let size = self.size.together(rule.size());
        if size.is_excessive() {
            return Err(NotTaken::TooMany);
        }
        self.list.push(rule)?;
        self.size = size;
        Ok(())
    }
}
