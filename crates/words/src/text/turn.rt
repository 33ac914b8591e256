// How the reader's state changes at a byte: one match on state and byte, since both are data that the proofs speak of.
ghost use Rattle.std.specs.Prelude.{◌≡◌};
ghost use Rattle.words.specs.Words.{moved, turned};

use super::State;
use crate::bytes::Class;

// What a byte does: it is passed over, it is a word by itself, or it ends the plain word that began at a place.
#[derive(Clone, Copy, PartialEq, Eq, Debug)]
pub(super) enum Turn {
    Pass,
    Single,
    Ended(usize),
}

impl State {
    // The byte that ends a plain word is not passed: it is looked at again between words.
    pub(super) fn turn(&mut self, class: Class, at: usize) -> Turn
        ensures told { result ≡ turned self.old class }
        ensures after { self.new ≡ moved self.old class at }
    {
        match (*self, class) {
            (State::Within(_), Class::Plain) => Turn::Pass,
            (State::Within(start), _) => {
                *self = State::Between;
                Turn::Ended(start)
            }
            (State::Between, Class::Plain) => {
                *self = State::Within(at);
                Turn::Pass
            }
            (State::Between, Class::Semicolon) => {
                *self = State::Comment;
                Turn::Pass
            }
            (State::Between, Class::Mark | Class::Strange) => Turn::Single,
            (State::Comment, Class::Feed) => {
                *self = State::Between;
                Turn::Pass
            }
            (State::Between | State::Comment, _) => Turn::Pass,
        }
    }
}
