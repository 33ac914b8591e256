// Why a form is refused, and where.
ghost use Rattle.std.specs.Prelude.{◌≡◌};
ghost use Rattle.words.specs.Kinds.{kind_of};
ghost use Rattle.languages.specs.Machines.{refused_with};
ghost use Rattle.languages.specs.Refusals.{cause_number, class_cause};
ghost use Rattle.languages.specs.Senses.{sense};

use rules::refusal::NotTaken;
use words::token::Token;

// Why a form is refused, by the number that the refusal is known by.
#[derive(Clone, Copy, PartialEq, Eq, Debug)]
pub enum Cause {
    // A byte or a plain word that no text may have outside comments.
    IllegalWord = 1,
    // A word that cannot continue a form, or the end of the text.
    UnexpectedWord = 2,
    // A class that is undeclared or lacks the attribute, or a class, an attribute of one class or a production named
    // twice.
    WrongName = 3,
    // A variable first met under a predicate other than `=`, first met in a negated condition and again in a later one,
    // or in an action and in no unnegated condition.
    WrongVariable = 4,
    // A number that names no unnegated condition.
    NoSuchCondition = 5,
    // More than a limit allows.
    OverLimit = 6,
}

// A reader's refusal: why, and where: the first byte of the first broken word, the text's length where the text ends
// too early, or byte 32,768 of a text that is too long.
#[derive(Clone, Copy, Debug)]
pub struct Refusal {
    pub cause: Cause,
    pub place: usize,
}

impl Cause {
    // The number that a refusal is known by.
    pub fn number(self) -> u8
        ensures { result ≡ cause_number self }
    {
        self as u8
    }
}

// Why a class or an attribute is not taken.
impl From<NotTaken> for Cause {
    ghost from_gives = { λ refusal cause. cause ≡ class_cause refusal };

    fn from(refusal: NotTaken) -> Cause {
        match refusal {
            NotTaken::Twice => Cause::WrongName,
            NotTaken::TooMany => Cause::OverLimit,
        }
    }
}

// Why a word is refused that the form cannot go on with.
pub fn unexpected(token: &Token) -> Cause
    ensures { result ≡ refused_with (sense (kind_of token.now)) }
{
    match token {
        Token::Illegal(_) => Cause::IllegalWord,
        _ => Cause::UnexpectedWord,
    }
}
