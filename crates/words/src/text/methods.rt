// Reading the words of a text, one by one.
ghost use Rattle.std.specs.Prelude.{◌≡◌, ◌<◌, length, slice_index};
ghost use Rattle.words.specs.Kinds.{kind_of, mark_kind};
ghost use Rattle.words.specs.Words.{rest, text_of, words_of, Gave};
ghost use Rattle.words.specs.Law.{AreWords};

use super::turn::Turn;
use super::{State, Words};
use crate::bytes::class_of;
use crate::kinds::word_token;
use crate::token::{Token, Word};

// The word that the byte at a place is by itself.
fn single<'a>(text: &'a [u8], at: usize) -> Token<'a>
    requires { at < length text.now }
    ensures { kind_of result ≡ mark_kind (slice_index text.now at) }
{
    match text[at] {
        b'(' => Token::Open,
        b')' => Token::Close,
        b'^' => Token::Hat,
        _ => Token::Illegal(&text[at..at + 1]),
    }
}

impl<'a> Words<'a> {
    // All words of a text, which are exactly those that stand in it outside comments, in rising order of their places.
    pub fn new(text: &'a [u8]) -> Words<'a>
        ensures words { rest result ≡ words_of text.now }
        ensures text { text_of result ≡ text.now }
        ensures law { AreWords text.now (rest result) }
    {
        Words { text, at: 0 }
    }

    // The text that the words are read from.
    pub fn text(&self) -> &'a [u8]
        ensures { result.now ≡ text_of self.now }
    {
        self.text
    }

    // The next word, and none at the end of the text.
    // Not an Iterator's: tried, and behind a `for` over `by_ref` no proof knows which words are left.
    pub fn next(&mut self) -> Option<Word<'a>>
        ensures gave { Gave (rest self.old) result (rest self.new) }
        ensures text { text_of self.new ≡ text_of self.old }
    {
        let text = self.text;
        let mut state = State::Between;
        // By places, since a word is told by the places of its ends.
        for at in self.at..text.len() {
            match state.turn(class_of(text[at]), at) {
                Turn::Pass => {}
                Turn::Single => {
                    self.at = at + 1;
                    return Some(Word {
                        token: single(text, at),
                        place: at,
                    });
                }
                Turn::Ended(start) => {
                    self.at = at;
                    return Some(Word {
                        token: word_token(&text[start..at]),
                        place: start,
                    });
                }
            }
        }
        self.at = text.len();
        match state {
            State::Within(start) => Some(Word {
                token: word_token(&text[start..]),
                place: start,
            }),
            State::Between | State::Comment => None,
        }
    }
}
