// The words of actions.
ghost use Rattle.std.specs.Prelude.{◌≡◌, ℕ, List, [], ◌∷◌, ◌++◌};
ghost use Rattle.words.specs.Kinds.{kind_of, open', close', variable, symbol};
ghost use Rattle.values.specs.Naming.{held};
ghost use Rattle.rules.specs.Declarations.{classes_of};
ghost use Rattle.rules.specs.Attributes.{declared};
ghost use Rattle.rules.specs.Fitness.{condition_class};
ghost use Rattle.rules.specs.Rules.{conditions_of, action_of, term_of};
ghost use Rattle.languages.specs.Machines.{onward, unless};
ghost use Rattle.productions.specs.Sofar.{with_action, one_setting, setting_fault, ordinal, unnumbered};
ghost use Rattle.productions.specs.Sofar.{acting_class, action_with};
ghost use Rattle.productions.specs.Machine.{at_closing, at_settings, modify_word, remove_word};
ghost use Rattle.productions.specs.Meaning.{sofar_of, acting_of, settings_of, Judges, Steps, Turns};

use crate::draft::{Acting, Draft, count, room};
use crate::state::{Halt, State, Step};
use languages::naming::{class_named, field_named};
use languages::refusal::{Cause, unexpected};
use rules::action::{Action, Setting, Term};
use rules::class::Class;
use rules::classes::Classes;
use rules::conditions::unnegated_class;
use rules::place::Place;
use rules::size::MOST_SETTINGS;
use std::mem::replace;
use values::names::Names;
use values::value::Value;
use words::token::Token;

// How many actions a production may have.
pub(crate) const MOST_ACTIONS: usize = 8;

// `)` of an action.
pub(crate) fn at_closing(token: &Token) -> Result<Step, Halt>
    ensures { (ns : List (List ℕ)) (d : Draft) → Turns [] [] ns d State.Closing (kind_of token.now) result ns d }
{
    match token {
        Token::Close => Ok(Step::Onward(State::Actions)),
        _ => Err(unexpected(token).into()),
    }
}

// A written number as a condition's; below 1 it names none.
fn ordinal_of(number: i32) -> usize
    ensures { result ≡ ordinal number }
{
    number.max(0) as usize
}

impl Acting {
    // The class that an action is on.
    fn class(self) -> Class
        ensures { declared result ≡ acting_class (acting_of self) }
    {
        match self {
            Acting::Make(class) => class,
            Acting::Modify(_, class) => class,
        }
    }

    // The action with its settings.
    fn with(self, settings: Vec<Setting>) -> Action
        ensures { action_of result ≡ action_with (acting_of self) (settings_of settings.items) }
    {
        match self {
            Acting::Make(class) => Action::Make(class, settings),
            Acting::Modify(place, _) => Action::Modify(place, settings),
        }
    }
}

impl Draft {
    // Another action, or the end of the production.
    pub(crate) fn at_actions(&self, token: &Token) -> Result<Step, Halt>
        ensures { (ns : List (List ℕ)) → Turns [] [] ns self.now State.Actions (kind_of token.now) result ns self.now }
    {
        match token {
            Token::Open => self.open_action(),
            Token::Close => Ok(Step::Whole),
            _ => Err(unexpected(token).into()),
        }
    }

    // One action more.
    fn open_action(&self) -> Result<Step, Halt>
        ensures { (ns : List (List ℕ)) → Turns [] [] ns self.now State.Actions open' result ns self.now }
    {
        room(self.actions.len(), MOST_ACTIONS)?;
        Ok(Step::Onward(State::Action))
    }

    // One action more, which is whole but for its `)`.
    fn add_action(&mut self, action: Action) -> Result<Step, Halt>
        ensures { (ns : List (List ℕ)) → Steps ns result ns self.new (onward (at_closing (with_action (sofar_of ns self.old) (action_of action)))) }
    {
        self.actions.push(action)?;
        Ok(Step::Onward(State::Closing))
    }

    // The head of an action.
    pub(crate) fn at_action(&mut self, token: &Token) -> Result<Step, Halt>
        ensures { (ns : List (List ℕ)) → Turns [] [] ns self.old State.Action (kind_of token.now) result ns self.new }
    {
        match token {
            Token::Symbol(word) => self.action_head(word),
            _ => Err(unexpected(token).into()),
        }
    }

    // The same, where it is a symbol.
    fn action_head(&mut self, word: &[u8]) -> Result<Step, Halt>
        ensures { (ns : List (List ℕ)) → Turns [] [] ns self.old State.Action (symbol word.now) result ns self.new }
    {
        match word {
            b"make" => Ok(Step::Onward(State::Make)),
            b"modify" => Ok(Step::Onward(State::Modify)),
            b"remove" => Ok(Step::Onward(State::Remove)),
            b"halt" => self.add_action(Action::Halt),
            _ => Err(Cause::UnexpectedWord.into()),
        }
    }

    // An action that gets settings begins.
    fn begin_settings(&mut self, acting: Acting) -> Step
        ensures { (ns : List (List ℕ)) → Steps ns (Ok result) ns self.new (onward (at_settings (sofar_of ns self.old) (acting_of acting) [])) }
    {
        self.acting = acting;
        self.settings.clear();
        Step::Onward(State::Settings)
    }

    // The class of an element to make.
    pub(crate) fn at_make(
        &mut self,
        token: &Token,
        names: &Names,
        classes: &Classes,
    ) -> Result<Step, Halt>
        ensures { Turns (classes_of classes.now) [] (held names.now) self.old State.Make (kind_of token.now) result (held names.now) self.new }
    {
        match token {
            Token::Symbol(word) => self.make_class(word, names, classes),
            _ => Err(unexpected(token).into()),
        }
    }

    // The same, where it is a symbol: it is only looked up.
    fn make_class(&mut self, word: &[u8], names: &Names, classes: &Classes) -> Result<Step, Halt>
        ensures { Turns (classes_of classes.now) [] (held names.now) self.old State.Make (symbol word.now) result (held names.now) self.new }
    {
        let class = class_named(names, classes, word)?;
        Ok(self.begin_settings(Acting::Make(class)))
    }

    // The unnegated condition with this number, counted from 1, and its class.
    fn condition_at(&self, number: i32) -> Result<(usize, Class), Cause>
        ensures { Judges result (unnumbered (conditions_of self.now.conditions.items) number) (λ x. (x.0 ≡ ordinal number) × (declared x.1 ≡ condition_class (conditions_of self.now.conditions.items) (ordinal number))) }
    {
        let place = ordinal_of(number);
        let class = unnegated_class(&self.conditions, place).ok_or(Cause::NoSuchCondition)?;
        Ok((place, class))
    }

    // The condition whose element is modified.
    pub(crate) fn at_modify(&mut self, token: &Token) -> Result<Step, Halt>
        ensures { (ns : List (List ℕ)) → Turns [] [] ns self.old State.Modify (kind_of token.now) result ns self.new }
    {
        match token {
            Token::Number(number, _) => self.modify(*number),
            _ => Err(unexpected(token).into()),
        }
    }

    // The same, where it is a number.
    fn modify(&mut self, number: i32) -> Result<Step, Halt>
        ensures { (ns : List (List ℕ)) → Steps ns result ns self.new (modify_word (sofar_of ns self.old) number) }
    {
        let (place, class) = self.condition_at(number)?;
        Ok(self.begin_settings(Acting::Modify(place, class)))
    }

    // The condition whose element is removed.
    pub(crate) fn at_remove(&mut self, token: &Token) -> Result<Step, Halt>
        ensures { (ns : List (List ℕ)) → Turns [] [] ns self.old State.Remove (kind_of token.now) result ns self.new }
    {
        match token {
            Token::Number(number, _) => self.remove(*number),
            _ => Err(unexpected(token).into()),
        }
    }

    // The same, where it is a number.
    fn remove(&mut self, number: i32) -> Result<Step, Halt>
        ensures { (ns : List (List ℕ)) → Steps ns result ns self.new (remove_word (sofar_of ns self.old) number) }
    {
        let (place, _) = self.condition_at(number)?;
        self.add_action(Action::Remove(place))
    }

    // Another setting of an action, or its end.
    pub(crate) fn at_settings(&mut self, token: &Token) -> Result<Step, Halt>
        ensures { (ns : List (List ℕ)) → Turns [] [] ns self.old State.Settings (kind_of token.now) result ns self.new }
    {
        match token {
            Token::Hat => Ok(Step::Onward(State::Setting)),
            Token::Close => self.close_action(),
            _ => Err(unexpected(token).into()),
        }
    }

    // The action is whole.
    fn close_action(&mut self) -> Result<Step, Halt>
        ensures { (ns : List (List ℕ)) → Turns [] [] ns self.old State.Settings close' result ns self.new }
    {
        let next = Vec::new(self.heap());
        let settings = replace(&mut self.settings, next);
        self.actions.push(self.acting.with(settings))?;
        Ok(Step::Onward(State::Actions))
    }

    // The attribute of a setting.
    pub(crate) fn at_setting(&self, token: &Token, names: &Names) -> Result<Step, Halt>
        ensures { Turns [] [] (held names.now) self.now State.Setting (kind_of token.now) result (held names.now) self.now }
    {
        match token {
            Token::Symbol(word) => self.set_field(word, names),
            _ => Err(unexpected(token).into()),
        }
    }

    // The same, where it is a symbol: it is only looked up.
    fn set_field(&self, word: &[u8], names: &Names) -> Result<Step, Halt>
        ensures { Turns [] [] (held names.now) self.now State.Setting (symbol word.now) result (held names.now) self.now }
    {
        let field = field_named(names, &self.acting.class(), word)?;
        Ok(Step::Onward(State::Value(field)))
    }

    // One setting more.
    fn add_setting(&mut self, field: Place, value: Term) -> Result<Step, Halt>
        ensures { (ns : List (List ℕ)) → Steps ns result ns self.new (unless (setting_fault (sofar_of ns self.old)) (onward (at_settings (one_setting (sofar_of ns self.old)) (acting_of self.old.acting) (settings_of self.old.settings.items ++ record { field = field.number; value = term_of value } ∷ [])))) }
    {
        count(&mut self.used.settings, MOST_SETTINGS)?;
        self.settings.push(Setting { field, value })?;
        Ok(Step::Onward(State::Settings))
    }

    // A symbol as a value gets a name.
    fn set_symbol(&mut self, field: Place, word: &[u8], names: &mut Names) -> Result<Step, Halt>
        ensures { Turns [] [] (held names.old) self.old (State.Value field) (symbol word.now) result (held names.new) self.new }
    {
        let number = names.intern(word).ok_or(Cause::OverLimit)?;
        self.add_setting(field, Term::Constant(Value::Symbol(number)))
    }

    // A variable as a value must have been met in an unnegated condition.
    fn set_variable(&mut self, field: Place, word: &[u8]) -> Result<Step, Halt>
        ensures { (ns : List (List ℕ)) → Turns [] [] ns self.old (State.Value field) (variable word.now) result ns self.new }
    {
        let place = self.variables.given(word)?;
        self.add_setting(field, Term::Variable(place))
    }

    // The value that a field gets.
    pub(crate) fn at_value(
        &mut self,
        field: Place,
        token: &Token,
        names: &mut Names,
    ) -> Result<Step, Halt>
        ensures { Turns [] [] (held names.old) self.old (State.Value field) (kind_of token.now) result (held names.new) self.new }
    {
        match token {
            Token::Number(n, _) => self.add_setting(field, Term::Constant(Value::Number(*n))),
            Token::Symbol(word) => self.set_symbol(field, word, names),
            Token::Variable(word) => self.set_variable(field, word),
            _ => Err(unexpected(token).into()),
        }
    }
}
