// The unnegated conditions of a rule, by their numbers.
ghost use Rattle.std.specs.Prelude.{◌≡◌, true, false, length, MatchOption};
ghost use Rattle.rules.specs.Attributes.{declared};
ghost use Rattle.rules.specs.Rules.{conditions_of};
ghost use Rattle.rules.specs.Fitness.{unnegated, names_condition, condition_class};

use crate::class::Class;
use crate::condition::Condition;

// How many of the conditions are unnegated.
pub fn count_unnegated(conditions: &[Condition]) -> usize
    ensures { result ≡ length (unnegated (conditions_of conditions.now)) }
{
    conditions
        .iter()
        .filter(|condition| !condition.negated)
        .count()
}

// The class of the unnegated condition with this number, counted from 1, or none where no condition has it.
pub fn unnegated_class(conditions: &[Condition], number: usize) -> Option<Class>
    ensures { MatchOption result (names_condition (conditions_of conditions.now) number ≡ false) (λ c. (names_condition (conditions_of conditions.now) number ≡ true) × (declared c ≡ condition_class (conditions_of conditions.now) number)) }
{
    conditions
        .iter()
        .filter(|condition| !condition.negated)
        .nth(number.checked_sub(1)?)
        .map(|condition| condition.class)
}
