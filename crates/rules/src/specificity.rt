// How specific a rule is.
ghost use Rattle.std.specs.Prelude.{◌≡◌, ◌^◌, ◌<◌};
ghost use Rattle.rules.specs.Rules.{test_of, field_tests_of, conditions_of};
ghost use Rattle.rules.specs.Specificity.{choice_counts, specificity_of, TwoConstants};
ghost use Rattle.rules.specs.Marks.{mark_variable, variable_counts, mark_test, marked_test_counts, mark_tests, marked_tests_count};

use crate::condition::{Condition, FieldTest, Test};
use crate::place::Place;
use values::value::Value;

// What a choice counts: one for each of its constants.
fn choice_counts(constants: &[Value]) -> usize
    ensures { result ≡ choice_counts constants.now }
{
    constants.len()
}

// What a variable under no predicate counts: one if it was met before. Variables have numbers below 16, so a mark for
// each is a set.
fn variable_counts(met: &[bool; 16], variable: Place) -> usize
    ensures { result ≡ variable_counts met.now variable.number }
{
    usize::from(met[variable.number as usize])
}

// What a test counts, given the variables met before.
fn test_counts(met: &[bool; 16], test: &Test) -> usize
    ensures { result ≡ marked_test_counts met.now (test_of test.now) }
{
    match test {
        Test::Constant(_) | Test::Compare(_, _) | Test::CompareVariable(_, _) => 1,
        Test::Variable(variable) => variable_counts(met, *variable),
        Test::Choice(constants) => choice_counts(constants),
    }
}

// The variable is met.
fn mark_variable(met: &mut [bool; 16], variable: Place)
    ensures { met.new ≡ mark_variable met.old variable.number }
{
    met[variable.number as usize] = true;
}

// The variable of a test is met.
fn mark_test(met: &mut [bool; 16], test: &Test)
    ensures { met.new ≡ mark_test met.old (test_of test.now) }
{
    match test {
        Test::Variable(variable) | Test::CompareVariable(_, variable) => mark_variable(
            met, *variable,
        ),
        Test::Constant(_) | Test::Compare(_, _) | Test::Choice(_) => {}
    }
}

// What tests count in their order; the variable of each is met for those behind it. So this is a loop: a chain may not
// change the marks.
fn tests_count(met: &mut [bool; 16], tests: &[FieldTest]) -> usize
    requires { marked_tests_count met.old (field_tests_of tests.now) < 2 ^ 64 }
    ensures value { result ≡ marked_tests_count met.old (field_tests_of tests.now) }
    ensures after { met.new ≡ mark_tests met.old (field_tests_of tests.now) }
{
    let mut sum = 0;
    for test in tests {
        sum += test_counts(met, &test.test);
        mark_test(met, &test.test);
    }
    sum
}

// What conditions count in their order: each one for its class, and then its tests. A loop for the same reason.
pub(crate) fn conditions_count(conditions: &[Condition]) -> usize
    requires { specificity_of (conditions_of conditions.now) < 2 ^ 64 }
    ensures { result ≡ specificity_of (conditions_of conditions.now) }
{
    let mut met = [false; 16];
    let mut sum = 0;
    for condition in conditions {
        sum += 1 + tests_count(&mut met, &condition.tests);
    }
    sum
}

// The specificity of a rule whose only test is a choice of two constants.
pub fn specificity_example()
    ensures { TwoConstants }
{}
