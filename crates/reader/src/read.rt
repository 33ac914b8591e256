// Reading one form. Words, names and base are lent apart, since a call is right for any of them; and that the text
// stays is a clause of its own on the public calls, since a caller that reads on needs it by itself.
ghost use Rattle.std.specs.Prelude.{◌≡◌, length};
ghost use Rattle.words.specs.Words.{rest, text_of};
ghost use Rattle.values.specs.Naming.{held};
ghost use Rattle.rules.specs.Bases.{declaring_classes, sealed_classes};
ghost use Rattle.rules.specs.Declarations.{classes_of};
ghost use Rattle.reader.specs.Meaning.{Ran};
ghost use Rattle.reader.specs.Settled.{Settled};
ghost use Rattle.reader.specs.Reading.{Reads, ReadsDeclaration, ReadsCommand};

use crate::form::{Command, Phase, Taken};
use crate::state::{State, Step};
use languages::refusal::{Cause, Refusal};
use languages::text::{check_length, form_comes};
use rules::base::{Declaring, Sealed};
use rules::classes::Classes;
use values::names::Names;
use words::text::Words;

// Reads on to the end of a form. `productions` has a loop of its own, which fills a draft and can want memory.
fn read_words(
    phase: Phase,
    words: &mut Words,
    names: &mut Names,
    classes: &Classes,
) -> Result<Taken, Refusal>
    ensures { Ran phase (classes_of classes.now) words.old (held names.old) result (held names.new) words.new }
{
    let end = words.text().len();
    let mut state = State::Opening(phase);
    while let Some(word) = words.next() {
        let place = word.place;
        // A match: with `map_err(..)?` reading a form took nearly twice the instructions, since a state is large.
        match state.turn(&word.token, names, classes) {
            Ok(step) => match step {
                Step::Onward(next) => state = next,
                Step::Whole(form) => return Ok(form),
            },
            Err(cause) => return Err(Refusal { cause, place }),
        }
    }
    Err(Refusal {
        cause: Cause::UnexpectedWord,
        place: end,
    })
}

// Reads one form; a refusal moves neither the words nor the names.
fn read_form(
    phase: Phase,
    words: &mut Words,
    names: &mut Names,
    classes: &Classes,
) -> Result<Taken, Refusal>
    ensures { Reads phase (classes_of classes.now) (held names.old) words.old result (held names.new) words.new }
{
    let count = names.count();
    let mut ahead = *words;
    match read_words(phase, &mut ahead, names, classes) {
        Ok(form) => {
            *words = ahead;
            Ok(form)
        }
        Err(refusal) => {
            names.keep(count);
            Err(refusal)
        }
    }
}

// Reads a declaration into the base; false where what comes next is none, or nothing is left.
pub fn read_declaration(
    words: &mut Words,
    names: &mut Names,
    base: &mut Declaring,
) -> Result<bool, Refusal>
    ensures reads { ReadsDeclaration (length (text_of words.old)) (declaring_classes base.old) (held names.old)
        (rest words.old) result (declaring_classes base.new) (held names.new) (rest words.new) }
    ensures text { text_of words.new ≡ text_of words.old }
{
    check_length(words)?;
    if !form_comes(words, b"literalize") {
        return Ok(false);
    }
    let Taken::Declaration(class) = read_form(Phase::Declaring, words, names, base.classes())?
    else {
        unreachable!();
    };
    base.declare(class).unwrap();
    Ok(true)
}

// Reads a command; none where no word is left.
pub fn read_command(
    words: &mut Words,
    names: &mut Names,
    base: &Sealed,
) -> Result<Option<Command>, Refusal>
    ensures reads { ReadsCommand (length (text_of words.old)) (sealed_classes base.now) (held names.old)
        (rest words.old) result (held names.new) (rest words.new) }
    ensures text { text_of words.new ≡ text_of words.old }
{
    check_length(words)?;
    let mut ahead = *words;
    if ahead.next().is_none() {
        return Ok(None);
    }
    match read_form(Phase::Commanding, words, names, base.classes())? {
        Taken::Declaration(_) => unreachable!(),
        Taken::Commanded(command) => Ok(Some(command)),
    }
}

// What the contracts of the two calls say leaves no choice: only one answer fits the words.
pub fn answers_are_settled()
    ensures { Settled }
{}
