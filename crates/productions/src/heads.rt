// The words of a production up to its name. They lead to states of this crate, so `reader` has functions of its own.
ghost use Rattle.std.specs.Prelude.{ℕ, List, []};
ghost use Rattle.words.specs.Kinds.{kind_of, symbol};
ghost use Rattle.values.specs.Naming.{held};
ghost use Rattle.rules.specs.Bases.{entering_rules};
ghost use Rattle.productions.specs.Meaning.{Turns};

use crate::draft::{Draft, room};
use crate::state::{Halt, State, Step};
use languages::refusal::{Cause, unexpected};
use rules::base::{Entering, MOST_RULES};
use values::names::Names;
use words::token::Token;

// `(`.
pub(crate) fn at_opening(token: &Token) -> Result<Step, Halt>
    ensures { (ns : List (List ℕ)) (d : Draft) → Turns [] [] ns d State.Opening (kind_of token.now) result ns d }
{
    match token {
        Token::Open => Ok(Step::Onward(State::Head)),
        _ => Err(unexpected(token).into()),
    }
}

// `p`.
pub(crate) fn at_head(token: &Token) -> Result<Step, Halt>
    ensures { (ns : List (List ℕ)) (d : Draft) → Turns [] [] ns d State.Head (kind_of token.now) result ns d }
{
    match token {
        Token::Symbol(b"p") => Ok(Step::Onward(State::Name)),
        _ => Err(unexpected(token).into()),
    }
}

impl Draft {
    // The production's name.
    pub(crate) fn at_name(
        &mut self,
        token: &Token,
        names: &mut Names,
        base: &Entering,
    ) -> Result<Step, Halt>
        ensures { Turns [] (entering_rules base.now) (held names.old) self.old State.Name (kind_of token.now) result (held names.new) self.new }
    {
        match token {
            Token::Symbol(word) => self.begin(word, names, base),
            _ => Err(unexpected(token).into()),
        }
    }

    // The same, where it is a symbol: it gets a name, and must be new among the rules. The draft begins with it.
    fn begin(&mut self, word: &[u8], names: &mut Names, base: &Entering) -> Result<Step, Halt>
        ensures { Turns [] (entering_rules base.now) (held names.old) self.old State.Name (symbol word.now) result (held names.new) self.new }
    {
        let number = names.intern(word).ok_or(Cause::OverLimit)?;
        if base.has_rule(number) {
            return Err(Cause::WrongName.into());
        }
        room(base.count(), MOST_RULES)?;
        self.name = number;
        self.conditions.clear();
        self.variables.clear();
        self.actions.clear();
        self.used = base.size();
        Ok(Step::Onward(State::First))
    }
}
