// What each word does to the form that is being read. The word and the names are two parameters throughout: a struct
// that borrows both for one call would say no more. The first and the last word of a form have functions here and in
// `productions`, since they lead to states of different types.
ghost use Rattle.std.specs.Prelude.{◌≡◌, ℕ, List, [], slice_set};
ghost use Rattle.words.specs.Kinds.{symbol, kind_of};
ghost use Rattle.values.specs.Elements.{fields_of};
ghost use Rattle.values.specs.Naming.{held};
ghost use Rattle.rules.specs.Attributes.{declared};
ghost use Rattle.rules.specs.Declarations.{classes_of};
ghost use Rattle.reader.specs.declared.state.State.TheVariants.{Opening, Head, ClassName, Attributes};
ghost use Rattle.reader.specs.declared.state.State.TheVariants.{ElementClass, Pairs, Attribute, FieldValue, Tag, Closing};
ghost use Rattle.reader.specs.Meaning.{Turns};

use crate::form::{Command, Phase, Taken};
use crate::state::{Filling, State, Step};
use languages::naming::{class_named, field_named};
use languages::refusal::{Cause, unexpected};
use rules::class::Class;
use rules::classes::{Classes, MOST_CLASSES};
use rules::place::Place;
use values::element::Element;
use values::names::Names;
use values::value::Value;
use words::token::Token;

// The first word of a form: `(`.
fn at_opening(phase: Phase, token: &Token) -> Result<Step, Cause>
    ensures { (ns : List (List ℕ)) → Turns [] ns (Opening phase) (kind_of token.now) result ns }
{
    match token {
        Token::Open => Ok(Step::Onward(State::Head(phase))),
        _ => Err(unexpected(token)),
    }
}

// The word that says which form it is.
fn at_head(phase: Phase, token: &Token) -> Result<Step, Cause>
    ensures { (ns : List (List ℕ)) → Turns [] ns (Head phase) (kind_of token.now) result ns }
{
    match token {
        Token::Symbol(word) => head_word(phase, word),
        _ => Err(unexpected(token)),
    }
}

// The same, where it is a symbol; in a function of its own, since one match on the token and on its bytes was tried,
// and the proof of its last arm did not close.
fn head_word(phase: Phase, word: &[u8]) -> Result<Step, Cause>
    ensures { (ns : List (List ℕ)) → Turns [] ns (Head phase) (symbol word.now) result ns }
{
    match (phase, word) {
        (Phase::Declaring, b"literalize") => Ok(Step::Onward(State::ClassName)),
        (Phase::Commanding, b"make") => Ok(Step::Onward(State::ElementClass)),
        (Phase::Commanding, b"remove") => Ok(Step::Onward(State::Tag)),
        (Phase::Commanding, b"wm") => Ok(Step::Onward(State::Closing(Command::ListMemory))),
        _ => Err(Cause::UnexpectedWord),
    }
}

// The class of a declaration: a symbol, which gets a name and must be new.
fn at_class_name(token: &Token, names: &mut Names, classes: &Classes) -> Result<Step, Cause>
    ensures { Turns (classes_of classes.now) (held names.old) ClassName (kind_of token.now) result (held names.new) }
{
    match token {
        Token::Symbol(word) => {
            let number = names.intern(word).ok_or(Cause::OverLimit)?;
            if classes.find(number).is_some() {
                return Err(Cause::WrongName);
            }
            // The one limit of this crate, so written out.
            if classes.count() >= MOST_CLASSES {
                return Err(Cause::OverLimit);
            }
            Ok(Step::Onward(State::Attributes(Class::new(number))))
        }
        _ => Err(unexpected(token)),
    }
}

// An attribute of a declaration, which gets a name and must be new in its class, or the end of the declaration.
fn at_attributes(class: Class, token: &Token, names: &mut Names) -> Result<Step, Cause>
    ensures { Turns [] (held names.old) (Attributes class) (kind_of token.now) result (held names.new) }
{
    match token {
        Token::Close => Ok(Step::Whole(Taken::Declaration(class))),
        Token::Symbol(word) => {
            let mut class = class;
            let number = names.intern(word).ok_or(Cause::OverLimit)?;
            class.add(number)?;
            Ok(Step::Onward(State::Attributes(class)))
        }
        _ => Err(unexpected(token)),
    }
}

// The class of an element to make, which is only looked up.
fn at_element_class(token: &Token, names: &Names, classes: &Classes) -> Result<Step, Cause>
    ensures { Turns (classes_of classes.now) (held names.now) ElementClass (kind_of token.now) result (held names.now) }
{
    match token {
        Token::Symbol(word) => {
            let class = class_named(names, classes, word)?;
            let element = Element::of_class(class.name());
            Ok(Step::Onward(State::Pairs(Filling { class, element })))
        }
        _ => Err(unexpected(token)),
    }
}

impl Filling {
    // `^`, or the end of a make.
    fn at_pairs(self, token: &Token) -> Result<Step, Cause>
        ensures { (ns : List (List ℕ)) → Turns [] ns (Pairs self) (kind_of token.now) result ns }
    {
        match token {
            Token::Hat => Ok(Step::Onward(State::Attribute(self))),
            Token::Close => Ok(Step::Whole(Taken::Commanded(Command::Make(self.element)))),
            _ => Err(unexpected(token)),
        }
    }

    // An attribute of an element to make, which is only looked up.
    fn at_attribute(self, token: &Token, names: &Names) -> Result<Step, Cause>
        ensures { Turns [] (held names.now) (Attribute self) (kind_of token.now) result (held names.now) }
    {
        match token {
            Token::Symbol(word) => {
                let field = field_named(names, &self.class, word)?;
                Ok(Step::Onward(State::FieldValue(self, field)))
            }
            _ => Err(unexpected(token)),
        }
    }

    // The value of a field: a number, or a symbol, which gets a name.
    fn at_value(self, field: Place, token: &Token, names: &mut Names) -> Result<Step, Cause>
        ensures { Turns [] (held names.old) (FieldValue self field) (kind_of token.now) result (held names.new) }
    {
        let value = match token {
            Token::Number(n, _) => Value::Number(*n),
            Token::Symbol(word) => Value::Symbol(names.intern(word).ok_or(Cause::OverLimit)?),
            _ => return Err(unexpected(token)),
        };
        Ok(Step::Onward(State::Pairs(self.with(field, value))))
    }

    // One field more is set.
    fn with(self, field: Place, value: Value) -> Filling
        ensures class { declared result.class ≡ declared self.class }
        ensures fields { fields_of result.element ≡ slice_set (fields_of self.element) field.number value }
    {
        let mut filling = self;
        filling.element.set(field.number as usize, value);
        filling
    }
}

// A time tag, or `*` for all.
fn at_tag(token: &Token) -> Result<Step, Cause>
    ensures { (ns : List (List ℕ)) → Turns [] ns Tag (kind_of token.now) result ns }
{
    match token {
        Token::Number(n, _) => Ok(Step::Onward(State::Closing(Command::Remove(*n)))),
        Token::Symbol(b"*") => Ok(Step::Onward(State::Closing(Command::RemoveAll))),
        _ => Err(unexpected(token)),
    }
}

// The end of a command.
fn at_closing(command: Command, token: &Token) -> Result<Step, Cause>
    ensures { (ns : List (List ℕ)) → Turns [] ns (Closing command) (kind_of token.now) result ns }
{
    match token {
        Token::Close => Ok(Step::Whole(Taken::Commanded(command))),
        _ => Err(unexpected(token)),
    }
}

impl State {
    // What a word does in this state.
    pub(crate) fn turn(
        self,
        token: &Token,
        names: &mut Names,
        classes: &Classes,
    ) -> Result<Step, Cause>
        ensures { Turns (classes_of classes.now) (held names.old) self (kind_of token.now) result (held names.new) }
    {
        match self {
            State::Opening(phase) => at_opening(phase, token),
            State::Head(phase) => at_head(phase, token),
            State::ClassName => at_class_name(token, names, classes),
            State::Attributes(class) => at_attributes(class, token, names),
            State::ElementClass => at_element_class(token, names, classes),
            State::Pairs(filling) => filling.at_pairs(token),
            State::Attribute(filling) => filling.at_attribute(token, names),
            State::FieldValue(filling, field) => filling.at_value(field, token, names),
            State::Tag => at_tag(token),
            State::Closing(command) => at_closing(command, token),
        }
    }
}
