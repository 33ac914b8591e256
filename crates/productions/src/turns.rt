// What each word does to the production that is being read. The word and the names are two parameters throughout: a
// struct that borrows both for one call would say no more.
ghost use Rattle.words.specs.Kinds.{kind_of};
ghost use Rattle.values.specs.Naming.{held};
ghost use Rattle.rules.specs.Bases.{entering_classes, entering_rules};
ghost use Rattle.productions.specs.Meaning.{Turns};

use crate::actions::at_closing;
use crate::conditions::at_pattern;
use crate::draft::Draft;
use crate::heads::{at_head, at_opening};
use crate::state::{Halt, State, Step};
use rules::base::Entering;
use values::names::Names;
use words::token::Token;

impl Draft {
    // What a word does in a state. States are data, which the meaning of what was read depends on: a match shows them
    // all, where closures would hide them.
    pub(crate) fn turn(
        &mut self,
        state: State,
        token: &Token,
        names: &mut Names,
        base: &Entering,
    ) -> Result<Step, Halt>
        ensures { Turns (entering_classes base.now) (entering_rules base.now) (held names.old) self.old state (kind_of token.now) result (held names.new) self.new }
    {
        match state {
            State::Opening => at_opening(token),
            State::Head => at_head(token),
            State::Name => self.at_name(token, names, base),
            State::First => at_pattern(false, token),
            State::Conditions => self.at_conditions(token),
            State::Negated => at_pattern(true, token),
            State::Class(negated) => self.at_class(negated, token, names, base.classes()),
            State::Pairs => self.at_pairs(token),
            State::Attribute => self.at_attribute(token, names),
            State::Test(field) => self.at_test(field, token, names),
            State::Operand(field, predicate) => self.at_operand(field, predicate, token, names),
            State::Choice(field) => self.at_choice(field, token, names),
            State::Choices(field) => self.at_choices(field, token, names),
            State::Actions => self.at_actions(token),
            State::Action => self.at_action(token),
            State::Make => self.at_make(token, names, base.classes()),
            State::Modify => self.at_modify(token),
            State::Remove => self.at_remove(token),
            State::Closing => at_closing(token),
            State::Settings => self.at_settings(token),
            State::Setting => self.at_setting(token, names),
            State::Value(field) => self.at_value(field, token, names),
        }
    }
}
