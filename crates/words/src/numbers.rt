// The value of a plain word that is a number: an optional sign, one digit or more, and an optional final period.
ghost use Rattle.std.specs.Prelude.{◌≡◌};
ghost use Rattle.words.specs.Numbers.{negative, unsigned, undotted, decimal, capped, numeral};

// Past the magnitude of every number in range, so that reading more digits need not count on.
const CAP: u64 = 4294967296;

// Why a plain word has no value as a number.
#[derive(Clone, Copy, PartialEq, Eq, Debug)]
pub(crate) enum NotANumber {
    // It has not the form of a number.
    NoForm,
    // It has, but the number does not fit 32 signed bits.
    OutOfRange,
}

fn is_negative(word: &[u8]) -> bool
    ensures { result ≡ negative word.now }
{
    matches!(word, [b'-', ..])
}

fn without_sign(word: &[u8]) -> &[u8]
    ensures { result.now ≡ unsigned word.now }
{
    match word {
        [b'-' | b'+', rest @ ..] => rest,
        _ => word,
    }
}

fn without_period(word: &[u8]) -> &[u8]
    ensures { result.now ≡ undotted word.now }
{
    match word {
        [rest @ .., b'.'] => rest,
        _ => word,
    }
}

// The number that digits write, but at most `CAP`; none where a byte is no digit.
// By a `try_fold` it is no plainer: a closure has to be safe at every value, so that its sums would have to saturate.
fn magnitude(digits: &[u8]) -> Option<u64>
    ensures { result ≡ capped (decimal 0 digits.now) }
{
    let mut value = 0;
    for digit in digits {
        if !digit.is_ascii_digit() {
            return None;
        }
        value = (value * 10 + u64::from(*digit - b'0')).min(CAP);
    }
    Some(value)
}

// A word's value as a number, where it has a number's form.
pub(crate) fn read_number(word: &[u8]) -> Result<i32, NotANumber>
    ensures { result ≡ numeral word.now }
{
    let digits = without_period(without_sign(word));
    if digits.is_empty() {
        return Err(NotANumber::NoForm);
    }
    let magnitude = magnitude(digits).ok_or(NotANumber::NoForm)?;
    let value = if is_negative(word) {
        -(magnitude as i64)
    } else {
        magnitude as i64
    };
    i32::try_from(value).map_err(|_| NotANumber::OutOfRange)
}
