// What a rule asks of elements.
use crate::class::Class;
use crate::place::Place;
use values::value::Value;
use words::token::Predicate;

// What is asked of one value. A variable goes by its number in the rule. Five cases, and no
// term inside them, so that who matches looks at one enum.
#[derive(Drop)]
pub enum Test {
    // to be this value
    Constant(Value),
    // to be what the variable has, or to give it a value where it has none yet
    Variable(Place),
    // to stand in this relation to the value
    Compare(Predicate, Value),
    // to stand in this relation to what the variable has
    CompareVariable(Predicate, Place),
    // to be one of these
    Choice(Vec<Value>),
}

// A test, and the field whose value it is asked of.
#[derive(Drop)]
pub struct FieldTest {
    pub field: Place,
    pub test: Test,
}

// An element passes if it is of the class and passes every test. A negated condition holds where no element passes.
#[derive(Drop)]
pub struct Condition {
    pub negated: bool,
    pub class: Class,
    pub tests: Vec<FieldTest>,
}
