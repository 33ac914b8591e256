// The words of tests. The field is handed on, since it is part of the state and not of the draft.
ghost use Rattle.std.specs.Prelude.{◌≡◌, ℕ, List, [], ◌∷◌, ◌++◌};
ghost use Rattle.words.specs.Kinds.{kind_of, open_choice, close_choice, test, variable, symbol};
ghost use Rattle.values.specs.Naming.{held};
ghost use Rattle.rules.specs.Rules.{condition_of, test_of};
ghost use Rattle.languages.specs.Machines.{onward, unless, refuse};
ghost use Rattle.languages.specs.Naming.{symbolic};
ghost use Rattle.languages.specs.Senses.{sense};
ghost use Rattle.productions.specs.Forms.{ordering};
ghost use Rattle.productions.specs.Sofar.{one_test, with_test, test_fault, chosen_fault, one_constant, binding};
ghost use Rattle.productions.specs.Machine.{at_pairs, at_choices, on_chosen, chosen_word, chosen_constant};
ghost use Rattle.productions.specs.Meaning.{sofar_of, Steps, Turns};

use crate::draft::{Draft, count};
use crate::state::{Halt, State, Step};
use languages::refusal::{Cause, unexpected};
use rules::condition::{FieldTest, Test};
use rules::place::Place;
use rules::size::{MOST_CONSTANTS, MOST_TESTS};
use std::mem::replace;
use values::names::Names;
use values::value::Value;
use words::token::{Predicate, Token};

// Whether a predicate compares numbers, and so takes no symbol.
fn is_ordering(predicate: Predicate) -> bool
    ensures { result ≡ ordering predicate }
{
    matches!(
        predicate,
        Predicate::Less | Predicate::AtMost | Predicate::Greater | Predicate::AtLeast
    )
}

// Whether a variable may be met first under a predicate.
fn is_binding(predicate: Predicate) -> bool
    ensures { result ≡ binding predicate }
{
    matches!(predicate, Predicate::Equal)
}

impl Draft {
    // One test of the condition more.
    fn add_test(&mut self, field: Place, test: Test) -> Result<Step, Halt>
        ensures { (ns : List (List ℕ)) → Steps ns result ns self.new (onward (at_pairs (sofar_of ns self.old) (with_test (condition_of self.old.condition) field.number (test_of test)))) }
    {
        self.condition.tests.push(FieldTest { field, test })?;
        Ok(Step::Onward(State::Pairs))
    }

    // A test that is an operand by itself counts as one.
    fn add_bare_test(&mut self, field: Place, test: Test) -> Result<Step, Halt>
        ensures { (ns : List (List ℕ)) → Steps ns result ns self.new (unless (test_fault (sofar_of ns self.old)) (onward (at_pairs (one_test (sofar_of ns self.old)) (with_test (condition_of self.old.condition) field.number (test_of test))))) }
    {
        count(&mut self.used.tests, MOST_TESTS)?;
        self.add_test(field, test)
    }

    // A symbol as a test gets a name.
    fn bare_symbol(&mut self, field: Place, word: &[u8], names: &mut Names) -> Result<Step, Halt>
        ensures { Turns [] [] (held names.old) self.old (State.Test field) (symbol word.now) result (held names.new) self.new }
    {
        let number = names.intern(word).ok_or(Cause::OverLimit)?;
        self.add_bare_test(field, Test::Constant(Value::Symbol(number)))
    }

    // A variable as a test may be met first there. What `meet` is told is written out here and below: a method for it
    // would have to say that nothing else of the draft changes.
    fn bare_variable(&mut self, field: Place, word: &[u8]) -> Result<Step, Halt>
        ensures { (ns : List (List ℕ)) → Turns [] [] ns self.old (State.Test field) (variable word.now) result ns self.new }
    {
        let condition = self.conditions.len();
        let negated = self.condition.negated;
        let place = self.variables.meet(word, true, negated, condition)?;
        self.add_bare_test(field, Test::Variable(place))
    }

    // A predicate begins a test. Apart from `open_choice`: the clause of each is the turn of the state at its own word.
    fn open_comparison(&mut self, field: Place, predicate: Predicate) -> Result<Step, Halt>
        ensures { (ns : List (List ℕ)) → Turns [] [] ns self.old (State.Test field) (test predicate) result ns self.new }
    {
        count(&mut self.used.tests, MOST_TESTS)?;
        Ok(Step::Onward(State::Operand(field, predicate)))
    }

    // `<<` begins a test.
    fn open_choice(&mut self, field: Place) -> Result<Step, Halt>
        ensures { (ns : List (List ℕ)) → Turns [] [] ns self.old (State.Test field) open_choice result ns self.new }
    {
        count(&mut self.used.tests, MOST_TESTS)?;
        Ok(Step::Onward(State::Choice(field)))
    }

    // A test of a field.
    pub(crate) fn at_test(
        &mut self,
        field: Place,
        token: &Token,
        names: &mut Names,
    ) -> Result<Step, Halt>
        ensures { Turns [] [] (held names.old) self.old (State.Test field) (kind_of token.now) result (held names.new) self.new }
    {
        match token {
            Token::Number(n, _) => self.add_bare_test(field, Test::Constant(Value::Number(*n))),
            Token::Symbol(word) => self.bare_symbol(field, word, names),
            Token::Variable(word) => self.bare_variable(field, word),
            Token::Test(predicate) => self.open_comparison(field, *predicate),
            Token::OpenChoice => self.open_choice(field),
            _ => Err(unexpected(token).into()),
        }
    }

    // A symbol after a predicate gets a name, unless the predicate compares numbers.
    fn compared_symbol(
        &mut self,
        field: Place,
        predicate: Predicate,
        word: &[u8],
        names: &mut Names,
    ) -> Result<Step, Halt>
        ensures { Turns [] [] (held names.old) self.old (State.Operand field predicate) (symbol word.now) result (held names.new) self.new }
    {
        if is_ordering(predicate) {
            return Err(Cause::UnexpectedWord.into());
        }
        let number = names.intern(word).ok_or(Cause::OverLimit)?;
        self.add_test(field, Test::Compare(predicate, Value::Symbol(number)))
    }

    // A variable after a predicate may be met first there only under `=`.
    fn compared_variable(
        &mut self,
        field: Place,
        predicate: Predicate,
        word: &[u8],
    ) -> Result<Step, Halt>
        ensures { (ns : List (List ℕ)) → Turns [] [] ns self.old (State.Operand field predicate) (variable word.now) result ns self.new }
    {
        let condition = self.conditions.len();
        let negated = self.condition.negated;
        let binds = is_binding(predicate);
        let place = self.variables.meet(word, binds, negated, condition)?;
        self.add_test(field, Test::CompareVariable(predicate, place))
    }

    // What a field is compared with.
    pub(crate) fn at_operand(
        &mut self,
        field: Place,
        predicate: Predicate,
        token: &Token,
        names: &mut Names,
    ) -> Result<Step, Halt>
        ensures { Turns [] [] (held names.old) self.old (State.Operand field predicate) (kind_of token.now) result (held names.new) self.new }
    {
        match token {
            Token::Number(n, _) => self.add_test(
                field,
                Test::Compare(predicate, Value::Number(*n)),
            ),
            Token::Symbol(word) => self.compared_symbol(field, predicate, word, names),
            Token::Variable(word) => self.compared_variable(field, predicate, word),
            _ => Err(unexpected(token).into()),
        }
    }

    // One constant of the choice more.
    fn add_constant(&mut self, field: Place, value: Value) -> Result<Step, Halt>
        ensures { (ns : List (List ℕ)) → Steps ns result ns self.new (unless (chosen_fault (sofar_of ns self.old)) (onward (at_choices (one_constant (sofar_of ns self.old)) (condition_of self.old.condition) field.number (self.old.choice.items ++ value ∷ [])))) }
    {
        count(&mut self.used.constants, MOST_CONSTANTS)?;
        self.choice.push(value)?;
        Ok(Step::Onward(State::Choices(field)))
    }

    // A word of a choice that is no number is a symbol, and gets a name.
    fn chosen_symbol(&mut self, field: Place, word: &[u8], names: &mut Names) -> Result<Step, Halt>
        ensures { Steps (held names.old) result (held names.new) self.new (chosen_constant (sofar_of (held names.old) self.old) (condition_of self.old.condition) field.number self.old.choice.items (symbolic word.now)) }
    {
        let number = names.intern(word).ok_or(Cause::OverLimit)?;
        self.add_constant(field, Value::Symbol(number))
    }

    // A word of a choice, by its bytes if it is no number; `>>` and words that are not plain are for the caller.
    fn chosen(&mut self, field: Place, token: &Token, names: &mut Names) -> Result<Step, Halt>
        ensures { Steps (held names.old) result (held names.new) self.new (on_chosen (chosen_word (sofar_of (held names.old) self.old) (condition_of self.old.condition) field.number self.old.choice.items) refuse (sense (kind_of token.now))) }
    {
        match token {
            Token::Number(n, _) => self.add_constant(field, Value::Number(*n)),
            Token::Symbol(word) | Token::Variable(word) => self.chosen_symbol(field, word, names),
            Token::Test(predicate) => self.chosen_symbol(field, predicate.bytes(), names),
            Token::Minus => self.chosen_symbol(field, b"-", names),
            Token::Arrow => self.chosen_symbol(field, b"-->", names),
            Token::OpenChoice => self.chosen_symbol(field, b"<<", names),
            _ => Err(unexpected(token).into()),
        }
    }

    // The first constant of a choice.
    pub(crate) fn at_choice(
        &mut self,
        field: Place,
        token: &Token,
        names: &mut Names,
    ) -> Result<Step, Halt>
        ensures { Turns [] [] (held names.old) self.old (State.Choice field) (kind_of token.now) result (held names.new) self.new }
    {
        self.choice.clear();
        self.chosen(field, token, names)
    }

    // The choice is whole.
    fn close_choice(&mut self, field: Place) -> Result<Step, Halt>
        ensures { (ns : List (List ℕ)) → Turns [] [] ns self.old (State.Choices field) close_choice result ns self.new }
    {
        let next = Vec::new(self.heap());
        let constants = replace(&mut self.choice, next);
        self.add_test(field, Test::Choice(constants))
    }

    // Another constant of a choice, or its end.
    pub(crate) fn at_choices(
        &mut self,
        field: Place,
        token: &Token,
        names: &mut Names,
    ) -> Result<Step, Halt>
        ensures { Turns [] [] (held names.old) self.old (State.Choices field) (kind_of token.now) result (held names.new) self.new }
    {
        match token {
            Token::CloseChoice => self.close_choice(field),
            _ => self.chosen(field, token, names),
        }
    }
}
