// The words of conditions, but for their tests.
ghost use Rattle.std.specs.Prelude.{ℕ, List, []};
ghost use Rattle.words.specs.Kinds.{kind_of, open', close', minus, symbol};
ghost use Rattle.values.specs.Naming.{held};
ghost use Rattle.rules.specs.Declarations.{classes_of};
ghost use Rattle.languages.specs.Machines.{onward, refuse, on_open};
ghost use Rattle.languages.specs.Senses.{sense};
ghost use Rattle.productions.specs.Machine.{at_class};
ghost use Rattle.productions.specs.Meaning.{sofar_of, Steps, Turns};

use crate::draft::{Draft, blank_condition, count, room};
use crate::state::{Halt, State, Step};
use languages::naming::{class_named, field_named};
use languages::refusal::{Cause, unexpected};
use rules::classes::Classes;
use rules::condition::Condition;
use rules::conditions::count_unnegated;
use rules::size::MOST_TESTS;
use std::mem::replace;
use values::names::Names;
use words::token::Token;

// How many conditions a production may have, and how many of them unnegated.
pub(crate) const MOST_CONDITIONS: usize = 8;

pub(crate) const MOST_UNNEGATED: usize = 6;

// `(` of a condition whose sign is known: of the first one, or after `-`. `at_opening` is apart: one function given the
// next state would need a clause over any state.
pub(crate) fn at_pattern(negated: bool, token: &Token) -> Result<Step, Halt>
    ensures { (ns : List (List ℕ)) (d : Draft) → Steps ns result ns d (on_open (onward (at_class (sofar_of ns d) negated)) refuse (sense (kind_of token.now))) }
{
    match token {
        Token::Open => Ok(Step::Onward(State::Class(negated))),
        _ => Err(unexpected(token).into()),
    }
}

impl Draft {
    // Another condition, or `-->`.
    pub(crate) fn at_conditions(&self, token: &Token) -> Result<Step, Halt>
        ensures { (ns : List (List ℕ)) → Turns [] [] ns self.now State.Conditions (kind_of token.now) result ns self.now }
    {
        match token {
            Token::Open => self.open_condition(),
            Token::Minus => self.negate_condition(),
            Token::Arrow => Ok(Step::Onward(State::Actions)),
            _ => Err(unexpected(token).into()),
        }
    }

    // One unnegated condition more.
    fn open_condition(&self) -> Result<Step, Halt>
        ensures { (ns : List (List ℕ)) → Turns [] [] ns self.now State.Conditions open' result ns self.now }
    {
        room(self.conditions.len(), MOST_CONDITIONS)?;
        room(count_unnegated(&self.conditions), MOST_UNNEGATED)?;
        Ok(Step::Onward(State::Class(false)))
    }

    // One negated condition more.
    fn negate_condition(&self) -> Result<Step, Halt>
        ensures { (ns : List (List ℕ)) → Turns [] [] ns self.now State.Conditions minus result ns self.now }
    {
        room(self.conditions.len(), MOST_CONDITIONS)?;
        Ok(Step::Onward(State::Negated))
    }

    // The class of a condition.
    pub(crate) fn at_class(
        &mut self,
        negated: bool,
        token: &Token,
        names: &Names,
        classes: &Classes,
    ) -> Result<Step, Halt>
        ensures { Turns (classes_of classes.now) [] (held names.now) self.old (State.Class negated) (kind_of token.now) result (held names.now) self.new }
    {
        match token {
            Token::Symbol(word) => self.begin_condition(negated, word, names, classes),
            _ => Err(unexpected(token).into()),
        }
    }

    // The same, where it is a symbol: it is only looked up. The class counts as a test.
    fn begin_condition(
        &mut self,
        negated: bool,
        word: &[u8],
        names: &Names,
        classes: &Classes,
    ) -> Result<Step, Halt>
        ensures { Turns (classes_of classes.now) [] (held names.now) self.old (State.Class negated) (symbol word.now) result (held names.now) self.new }
    {
        let class = class_named(names, classes, word)?;
        count(&mut self.used.tests, MOST_TESTS)?;
        self.condition.negated = negated;
        self.condition.class = class;
        self.condition.tests.clear();
        Ok(Step::Onward(State::Pairs))
    }

    // Another test of a condition, or its end.
    pub(crate) fn at_pairs(&mut self, token: &Token) -> Result<Step, Halt>
        ensures { (ns : List (List ℕ)) → Turns [] [] ns self.old State.Pairs (kind_of token.now) result ns self.new }
    {
        match token {
            Token::Hat => Ok(Step::Onward(State::Attribute)),
            Token::Close => self.close_condition(),
            _ => Err(unexpected(token).into()),
        }
    }

    // The condition is whole.
    fn close_condition(&mut self) -> Result<Step, Halt>
        ensures { (ns : List (List ℕ)) → Turns [] [] ns self.old State.Pairs close' result ns self.new }
    {
        let next = blank_condition(self.heap());
        self.conditions.push(replace(&mut self.condition, next))?;
        Ok(Step::Onward(State::Conditions))
    }

    // The attribute of a test.
    pub(crate) fn at_attribute(&self, token: &Token, names: &Names) -> Result<Step, Halt>
        ensures { Turns [] [] (held names.now) self.now State.Attribute (kind_of token.now) result (held names.now) self.now }
    {
        match token {
            Token::Symbol(word) => self.tested_field(word, names),
            _ => Err(unexpected(token).into()),
        }
    }

    // The same, where it is a symbol: it is only looked up, by what `set_field` of actions shares.
    fn tested_field(&self, word: &[u8], names: &Names) -> Result<Step, Halt>
        ensures { Turns [] [] (held names.now) self.now State.Attribute (symbol word.now) result (held names.now) self.now }
    {
        let field = field_named(names, &self.condition.class, word)?;
        Ok(Step::Onward(State::Test(field)))
    }
}
