// A production as far as it was read.
ghost use Rattle.std.specs.Prelude.{◌≡◌, ◌+◌, ⊤};
ghost use Rattle.productions.specs.Sofar.{full};
ghost use Rattle.productions.specs.Meaning.{Judges};

use crate::variables::Variables;
use languages::refusal::Cause;
use rules::action::{Action, Setting};
use rules::class::Class;
use rules::condition::Condition;
use rules::size::Size;
use std::alloc::{AllocError, Global};
use values::value::Value;

// An action that gets settings, by the class of its element.
#[derive(Clone, Copy)]
pub(crate) enum Acting {
    Make(Class),
    Modify(usize, Class),
}

// The name, the conditions and the actions that were read whole, the variables that were met, and how much of the
// base's limits is used up, the rules before this one included; then what was read of a condition, of a choice in it,
// and of an action.
#[derive(Drop)]
pub(crate) struct Draft {
    pub name: u8,
    pub conditions: Vec<Condition>,
    pub variables: Variables,
    pub actions: Vec<Action>,
    pub used: Size,
    pub condition: Condition,
    pub choice: Vec<Value>,
    pub acting: Acting,
    pub settings: Vec<Setting>,
}

// A condition of which nothing is read.
pub(crate) fn blank_condition(heap: Global) -> Condition {
    Condition {
        negated: false,
        class: Class::new(0),
        tests: Vec::new(heap),
    }
}

// Whether there is room for one more where so many are used, of which there may be this many.
pub(crate) fn room(used: usize, most: usize) -> Result<(), Cause>
    ensures { Judges result (full most used) (λ _. ⊤) }
{
    if used >= most {
        return Err(Cause::OverLimit);
    }
    Ok(())
}

// One more of what is counted, of which there may be this many.
pub(crate) fn count(used: &mut usize, most: usize) -> Result<(), Cause>
    ensures { Judges result (full most used.old) (λ _. used.new ≡ used.old + 1) }
{
    room(*used, most)?;
    *used += 1;
    Ok(())
}

impl Draft {
    // Nothing is read yet.
    pub fn new(heap: Global) -> Result<Draft, AllocError> {
        let variables = Variables::new(heap)?;
        Ok(Draft {
            name: 0,
            conditions: Vec::new(heap),
            variables,
            actions: Vec::new(heap),
            used: Size::default(),
            condition: blank_condition(heap),
            choice: Vec::new(heap),
            acting: Acting::Make(Class::new(0)),
            settings: Vec::new(heap),
        })
    }

    // What its lists are allocated from.
    pub fn heap(&self) -> Global {
        *self.settings.allocator()
    }
}
