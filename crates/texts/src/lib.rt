// Building the texts of tests out of parts.
#![tactic(auto)]

ghost use Rattle.std.specs.Prelude.{◌≡◌, ◌++◌, IfOk, length, ◌-◌, replicate};
ghost use Rattle.texts.specs.Blanks.{filled, numbered};

use std::alloc::{AllocError, Global};
use std::ops::Range;

// The second behind the first.
pub fn joined(heap: Global, first: &[u8], second: &[u8]) -> Result<Vec<u8>, AllocError>
    ensures { IfOk result (λ v. v.items ≡ first.now ++ second.now) }
{
    let mut whole = first.to_vec(heap)?;
    whole.extend_from_slice(second)?;
    Ok(whole)
}

// The text with the filler in place of each `_`.
pub fn filled(heap: Global, text: &[u8], filler: &[u8]) -> Result<Vec<u8>, AllocError>
    ensures { IfOk result (λ v. v.items ≡ filled filler.now text.now) }
{
    let mut whole = Vec::new(heap);
    for byte in text {
        if *byte == b'_' {
            whole.extend_from_slice(filler)?;
        } else {
            whole.push(*byte)?;
        }
    }
    Ok(whole)
}

// The text once for each of these numbers, with the number in place of each `_`.
pub fn numbered(heap: Global, text: &[u8], numbers: Range<usize>) -> Result<Vec<u8>, AllocError>
    ensures { IfOk result (λ v. v.items ≡ numbered text.now numbers.start (numbers.end - numbers.start)) }
{
    let mut whole = Vec::new(heap);
    for number in numbers.start..numbers.end {
        let digits = number.to_string(heap)?;
        let one = filled(heap, text, digits.as_bytes())?;
        whole.extend_from_slice(&one)?;
    }
    Ok(whole)
}

// The text of this length that has only the filler between its ends; the ends alone where they are as long or longer.
pub fn stretched(
    heap: Global,
    begin: &[u8],
    filler: u8,
    end: &[u8],
    whole: usize,
) -> Result<Vec<u8>, AllocError>
    ensures { IfOk result (λ v. v.items ≡ begin.now ++ replicate (whole - length begin.now - length end.now) filler ++ end.now) }
{
    let gap = whole.saturating_sub(begin.len()).saturating_sub(end.len());
    let mut text = begin.to_vec(heap)?;
    // A loop, since the library's `repeat` speaks of clones and not of bytes.
    for _ in 0..gap {
        text.push(filler)?;
    }
    text.extend_from_slice(end)?;
    Ok(text)
}

#[cfg(test)]
mod tests;
