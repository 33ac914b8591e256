// A rule that is fit to be matched and fired.
ghost use Rattle.std.specs.Prelude.{◌≡◌, ◌≤◌, true, [], length};
ghost use Rattle.rules.specs.Rules.{conditions_of, actions_of};
ghost use Rattle.rules.specs.Fitness.{unnegated, fit_conditions, fit_actions};
ghost use Rattle.rules.specs.Sizes.{tests_in, constants_in, settings_in};

use crate::action::Action;
use crate::condition::Condition;

// The symbol that names the rule, its conditions and its actions, in text order. Its type keeps that at least one and
// at most six conditions are unnegated (`matched`, `tagged`), that fields lie within the class and variables are met
// first under no predicate or under `=` (`met`), and that in actions fields lie within the class, K is in range and
// values are bound (`bound`).
#[derive(Drop)]
pub struct Rule {
    pub name: u8,
    pub conditions: Vec<Condition>,
    pub actions: Vec<Action>,
    ghost matched: { 1 ≤ length (unnegated (conditions_of conditions.items)) },
    ghost tagged: { length (unnegated (conditions_of conditions.items)) ≤ 6 },
    ghost few: { length (conditions_of conditions.items) ≤ 8 },
    ghost met: { fit_conditions [] (conditions_of conditions.items) ≡ true },
    ghost short: { length (actions_of actions.items) ≤ 8 },
    ghost tests: { tests_in (conditions_of conditions.items) ≤ 512 },
    ghost constants: { constants_in (conditions_of conditions.items) ≤ 256 },
    ghost settings: { settings_in (actions_of actions.items) ≤ 256 },
    ghost bound: { fit_actions (conditions_of conditions.items) (actions_of actions.items) ≡ true },
}

mod methods;
