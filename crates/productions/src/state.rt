// What may come next in a production.
ghost use Rattle.std.specs.Prelude.{◌≡◌};
ghost use Rattle.productions.specs.declared.state.Halt.TheVariants.{Refused, NoMemory};
ghost use Rattle.productions.specs.Meaning.{trouble_at};

use crate::trouble::Trouble;
use languages::refusal::{Cause, Refusal};
use rules::place::Place;
use std::alloc::AllocFailed;
use words::token::Predicate;

#[derive(Clone, Copy)]
pub(crate) enum State {
    // `(`
    Opening,
    // `p`
    Head,
    // the production's name
    Name,
    // `(` of the first condition
    First,
    // `(` or `-` of another condition, or `-->`
    Conditions,
    // `(` after `-`
    Negated,
    // the class of a condition, which is negated or not
    Class(bool),
    // `^` of another test, or `)`
    Pairs,
    // the attribute of a test
    Attribute,
    // a test of this field
    Test(Place),
    // what the field is compared with
    Operand(Place, Predicate),
    // the first constant of a choice
    Choice(Place),
    // another constant, or `>>`
    Choices(Place),
    // `(` of another action, or `)`
    Actions,
    // the head of an action
    Action,
    // the class of an element to make
    Make,
    // the condition whose element is modified
    Modify,
    // the condition whose element is removed
    Remove,
    // `)` of an action
    Closing,
    // `^` of another setting, or `)`
    Settings,
    // the attribute of a setting
    Setting,
    // the value that this field gets
    Value(Place),
}

// What a word does that is taken: it leads on, or it ends the production. An enum of its own: a `None` would not say
// that it is whole.
#[derive(Clone, Copy)]
pub(crate) enum Step {
    Onward(State),
    Whole,
}

// Why a word is not taken.
#[derive(Clone, Copy)]
pub(crate) enum Halt {
    Refused(Cause),
    NoMemory,
}

impl Halt {
    // Why the production is not read, where the word stands at this place.
    pub(crate) fn at(self, place: usize) -> Trouble
        ensures { result ≡ trouble_at self place }
    {
        match self {
            Halt::Refused(cause) => Trouble::Refused(Refusal { cause, place }),
            Halt::NoMemory => Trouble::NoMemory,
        }
    }
}

impl From<Cause> for Halt {
    ghost from_gives = { λ c h. h ≡ Refused c };

    fn from(cause: Cause) -> Halt {
        Halt::Refused(cause)
    }
}

impl<T: Drop> From<AllocFailed<T>> for Halt {
    ghost from_gives = { λ _ h. h ≡ NoMemory };

    fn from(_failed: AllocFailed<T>) -> Halt {
        Halt::NoMemory
    }
}
