// What a plain word is.
ghost use Rattle.std.specs.Prelude.{◌≡◌, IfSome};
ghost use Rattle.words.specs.Kinds.{kind_of, spelled, predicate, pointed, is_variable};
ghost use Rattle.words.specs.Kinds.{predicate_of, named_kind, word_kind};

use crate::numbers::{NotANumber, read_number};
use crate::token::{Predicate, Token};

// Whether a comma or a period stands in a word.
fn is_pointed(word: &[u8]) -> bool
    ensures { result ≡ pointed word.now }
{
    word.iter().any(|byte| matches!(byte, b',' | b'.'))
}

// Whether a word has three bytes or more, the first `<` and the last `>`.
fn is_variable(word: &[u8]) -> bool
    ensures { result ≡ is_variable word.now }
{
    matches!(word, [b'<', _, .., b'>'])
}

// The predicate that a word spells. An Option, since a word that spells none is no error.
fn predicate_of(word: &[u8]) -> Option<Predicate>
    ensures predicate { result ≡ predicate_of word.now }
    ensures bytes { IfSome result (λ p. predicate p ≡ word.now) }
{
    match word {
        b"=" => Some(Predicate::Equal),
        b"<>" => Some(Predicate::Unequal),
        b"<" => Some(Predicate::Less),
        b"<=" => Some(Predicate::AtMost),
        b">" => Some(Predicate::Greater),
        b">=" => Some(Predicate::AtLeast),
        b"<=>" => Some(Predicate::SameKind),
        _ => None,
    }
}

// The token of a plain word that is no number and has no comma and no period.
fn named_token(word: &[u8]) -> Token<'_>
    ensures kind { kind_of result ≡ named_kind word.now }
    ensures bytes { spelled (kind_of result) ≡ word.now }
{
    match word {
        b"-" => Token::Minus,
        b"-->" => Token::Arrow,
        b"<<" => Token::OpenChoice,
        b">>" => Token::CloseChoice,
        _ => match predicate_of(word) {
            Some(predicate) => Token::Test(predicate),
            None if is_variable(word) => Token::Variable(word),
            None => Token::Symbol(word),
        },
    }
}

// The token of a plain word.
pub(crate) fn word_token(word: &[u8]) -> Token<'_>
    ensures kind { kind_of result ≡ word_kind word.now }
    ensures bytes { spelled (kind_of result) ≡ word.now }
{
    match read_number(word) {
        Ok(number) => Token::Number(number, word),
        Err(NotANumber::OutOfRange) => Token::Illegal(word),
        Err(NotANumber::NoForm) if is_pointed(word) => Token::Illegal(word),
        Err(NotANumber::NoForm) => named_token(word),
    }
}
