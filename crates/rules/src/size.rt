// How much of the limits of a base rules use.
ghost use Rattle.std.specs.Prelude.{◌≡◌, ◌+◌, ◌^◌, ◌<◌};
ghost use Rattle.rules.specs.Rules.{test_of, conditions_of, action_of, actions_of};
ghost use Rattle.rules.specs.Sizes.{size_meant, together, excessive, tests_in, test_constants, constants_in, action_settings, settings_in};

use crate::action::Action;
use crate::condition::{Condition, Test};

// How many tests, constants of choices and settings the rules of a base may have.
pub const MOST_TESTS: usize = 512;

pub const MOST_CONSTANTS: usize = 256;

pub const MOST_SETTINGS: usize = 256;

// How many tests, constants of choices and settings there are.
#[derive(Clone, Copy, PartialEq, Eq, Default, Debug)]
pub struct Size {
    pub tests: usize,
    pub constants: usize,
    pub settings: usize,
}

impl Size {
    // The two together.
    pub(crate) fn together(self, other: Size) -> Size
        requires tests { self.tests + other.tests < 2 ^ 64 }
        requires constants { self.constants + other.constants < 2 ^ 64 }
        requires settings { self.settings + other.settings < 2 ^ 64 }
        ensures { size_meant result ≡ together (size_meant self) (size_meant other) }
    {
        Size {
            tests: self.tests + other.tests,
            constants: self.constants + other.constants,
            settings: self.settings + other.settings,
        }
    }

    // Whether it is more than a base may have.
    pub(crate) fn is_excessive(self) -> bool
        ensures { result ≡ excessive (size_meant self) }
    {
        self.tests > MOST_TESTS || self.constants > MOST_CONSTANTS || self.settings > MOST_SETTINGS
    }
}

// The tests of conditions; the class counts as one.
pub(crate) fn tests_in(conditions: &[Condition]) -> usize
    requires { tests_in (conditions_of conditions.now) < 2 ^ 64 }
    ensures { result ≡ tests_in (conditions_of conditions.now) }
{
    conditions
        .iter()
        .map(|condition| 1 + condition.tests.len())
        .sum()
}

// The constants of a choice; another test has none.
fn test_constants(test: &Test) -> usize
    ensures { result ≡ test_constants (test_of test.now) }
{
    match test {
        Test::Choice(constants) => constants.len(),
        _ => 0,
    }
}

// The constants of the choices in conditions.
pub(crate) fn constants_in(conditions: &[Condition]) -> usize
    requires { constants_in (conditions_of conditions.now) < 2 ^ 64 }
    ensures { result ≡ constants_in (conditions_of conditions.now) }
{
    conditions
        .iter()
        .flat_map(|condition| condition.tests.iter())
        .map(|test| test_constants(&test.test))
        .sum()
}

// The settings of an action.
fn action_settings(action: &Action) -> usize
    ensures { result ≡ action_settings (action_of action.now) }
{
    match action {
        Action::Make(_, settings) | Action::Modify(_, settings) => settings.len(),
        Action::Remove(_) | Action::Halt => 0,
    }
}

// The settings of actions.
pub(crate) fn settings_in(actions: &[Action]) -> usize
    requires { settings_in (actions_of actions.now) < 2 ^ 64 }
    ensures { result ≡ settings_in (actions_of actions.now) }
{
    actions.iter().map(action_settings).sum()
}
