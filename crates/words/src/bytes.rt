// What a single byte of a rule text is.
ghost use Rattle.std.specs.Prelude.{◌≡◌};
ghost use Rattle.words.specs.Bytes.{class_of};

// A blank and a line feed separate words, a mark is a word by itself, a semicolon opens a comment, plain bytes make up
// plain words, and a strange byte may stand in no word.
#[derive(Clone, Copy, PartialEq, Eq, Debug)]
pub(crate) enum Class {
    Blank,
    Feed,
    Mark,
    Semicolon,
    Plain,
    Strange,
}

// What a byte is. A function by its name, which the proofs speak of, and no `From`.
pub(crate) fn class_of(byte: u8) -> Class
    ensures { result ≡ class_of byte }
{
    match byte {
        b'(' | b')' | b'^' => Class::Mark,
        b';' => Class::Semicolon,
        b'\n' => Class::Feed,
        b' ' | b'\t' | b'\r' => Class::Blank,
        b'!'..=b'~' => Class::Plain,
        _ => Class::Strange,
    }
}
