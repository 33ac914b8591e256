// What a base holds, as text. A symbol shows as `#` and its number, a variable as its number in angle brackets, a
// condition as its class behind `+`, or behind `-` where it is negated, and a field as `^` and its number.
use rules::action::{Action, Setting, Term};
use rules::condition::{Condition, Test};
use rules::rule::Rule;
use std::alloc::{AllocError, Global};
use std::fmt;
use values::names::Names;
use values::value::Value;
use words::token::Predicate;

// A part of a base, as it shows.
#[derive(Clone, Copy)]
struct Shown<T>(T);

impl fmt::Display for Shown<Value> {
    fn fmt<W: fmt::Write>(&self, f: &mut fmt::Formatter<W>) -> fmt::Result {
        match self.0 {
            Value::Symbol(number) => write!(f, "#{number}"),
            Value::Number(number) => write!(f, "{number}"),
        }
    }
}

impl fmt::Display for Shown<Term> {
    fn fmt<W: fmt::Write>(&self, f: &mut fmt::Formatter<W>) -> fmt::Result {
        match self.0 {
            Term::Constant(value) => write!(f, "{}", Shown(value)),
            Term::Variable(place) => write!(f, "<{}>", place.number),
        }
    }
}

// Spelled here once more, and not by the predicate's own bytes, so that a test sees which predicate a word was read
// as.
impl fmt::Display for Shown<Predicate> {
    fn fmt<W: fmt::Write>(&self, f: &mut fmt::Formatter<W>) -> fmt::Result {
        f.write_str(match self.0 {
            Predicate::Equal => "=",
            Predicate::Unequal => "<>",
            Predicate::Less => "<",
            Predicate::AtMost => "<=",
            Predicate::Greater => ">",
            Predicate::AtLeast => ">=",
            Predicate::SameKind => "<=>",
        })
    }
}

impl fmt::Display for Shown<&Test> {
    fn fmt<W: fmt::Write>(&self, f: &mut fmt::Formatter<W>) -> fmt::Result {
        match self.0 {
            Test::Constant(value) => write!(f, "{}", Shown(*value)),
            Test::Variable(place) => write!(f, "{}", Shown(Term::Variable(*place))),
            Test::Compare(predicate, value) => {
                write!(f, "{} {}", Shown(*predicate), Shown(*value))
            }
            Test::CompareVariable(predicate, place) => {
                let operand = Term::Variable(*place);
                write!(f, "{} {}", Shown(*predicate), Shown(operand))
            }
            Test::Choice(constants) => {
                f.write_str("<<")?;
                for constant in constants.iter() {
                    write!(f, " {}", Shown(*constant))?;
                }
                f.write_str(" >>")
            }
        }
    }
}

impl fmt::Display for Shown<&Condition> {
    fn fmt<W: fmt::Write>(&self, f: &mut fmt::Formatter<W>) -> fmt::Result {
        let sign = if self.0.negated { "-" } else { "+" };
        write!(f, " {sign}#{}", self.0.class.name())?;
        for test in self.0.tests.iter() {
            write!(f, " ^{} {}", test.field.number, Shown(&test.test))?;
        }
        Ok(())
    }
}

impl fmt::Display for Shown<&[Setting]> {
    fn fmt<W: fmt::Write>(&self, f: &mut fmt::Formatter<W>) -> fmt::Result {
        for setting in self.0 {
            write!(f, " ^{} {}", setting.field.number, Shown(setting.value))?;
        }
        Ok(())
    }
}

impl fmt::Display for Shown<&Action> {
    fn fmt<W: fmt::Write>(&self, f: &mut fmt::Formatter<W>) -> fmt::Result {
        match self.0 {
            Action::Make(class, settings) => {
                write!(f, " make #{}{}", class.name(), Shown(settings.as_slice()))
            }
            Action::Modify(place, settings) => {
                write!(f, " modify {place}{}", Shown(settings.as_slice()))
            }
            Action::Remove(place) => write!(f, " remove {place}"),
            Action::Halt => f.write_str(" halt"),
        }
    }
}

impl fmt::Display for Shown<&Rule> {
    fn fmt<W: fmt::Write>(&self, f: &mut fmt::Formatter<W>) -> fmt::Result {
        write!(f, "#{}:", self.0.name)?;
        for condition in self.0.conditions.iter() {
            write!(f, "{}", Shown(condition))?;
        }
        f.write_str(" -->")?;
        for action in self.0.actions.iter() {
            write!(f, "{}", Shown(action))?;
        }
        Ok(())
    }
}

// The rules in their order, with a line feed behind each.
pub(crate) fn show_rules(heap: Global, rules: &[Rule]) -> Result<String, AllocError> {
    let mut text = String::new(heap);
    for rule in rules {
        writeln!(text, "{}", Shown(rule))?;
    }
    Ok(text)
}

// The names from this number on, with a space before each. In bytes, since names need not be text.
pub(crate) fn show_names(heap: Global, names: &Names, first: u8) -> Result<Vec<u8>, AllocError> {
    let mut text = Vec::new(heap);
    for number in first..=255 {
        if let Some(name) = names.name(number) {
            text.push(b' ')?;
            text.extend_from_slice(name)?;
        }
    }
    Ok(text)
}
