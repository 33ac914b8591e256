// The length of a text, and the word that says which form comes next.
ghost use Rattle.std.specs.Prelude.{◌≡◌, ◌≤◌, length, MatchResult};
ghost use Rattle.words.specs.Words.{rest, text_of};
ghost use Rattle.languages.specs.Languages.{longest, TooLong, comes_next};

use crate::refusal::{Cause, Refusal};
use words::text::Words;
use words::token::Token;

// How many bytes a text may have.
pub const LONGEST_TEXT: usize = 32768;

// Refuses a text that is too long.
pub fn check_length(words: &Words) -> Result<(), Refusal>
    ensures { MatchResult result (λ _. length (text_of words.now) ≤ longest)
        (λ x. TooLong (length (text_of words.now)) x) }
{
    if words.text().len() > LONGEST_TEXT {
        return Err(Refusal {
            cause: Cause::OverLimit,
            place: LONGEST_TEXT,
        });
    }
    Ok(())
}

// Whether the next words are `(` and this symbol.
pub fn form_comes(words: &Words, head: &[u8]) -> bool
    ensures { result ≡ comes_next head.now (rest words.now) }
{
    let mut ahead = *words;
    let first = ahead.next();
    let second = ahead.next();
    matches!(first, Some(word) if matches!(word.token, Token::Open))
        && matches!(second, Some(word) if matches!(word.token, Token::Symbol(symbol) if symbol == head))
}
