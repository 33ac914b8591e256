// The rules of a base.
ghost use Rattle.std.specs.Prelude.{◌≡◌, ◌≤◌, false, length};
ghost use Rattle.rules.specs.Ruled.{rules_of};
ghost use Rattle.rules.specs.Sizes.{size_meant, size_of_all, excessive};

use crate::base::MOST_RULES;
use crate::rule::Rule;
use crate::size::Size;
use rows::few::Few;

// At most 64 rules, by their numbers, and how many tests, constants of choices and settings they have together.
#[derive(Drop)]
pub(crate) struct Rules {
    list: Few<Rule, MOST_RULES>,
    size: Size,
    ghost few: { length list ≤ 64 },
    ghost counted: { size_meant size ≡ size_of_all (rules_of list) },
    ghost roomy: { excessive (size_of_all (rules_of list)) ≡ false },
}

mod methods;
