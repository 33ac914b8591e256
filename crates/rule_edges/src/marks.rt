// Texts with marks.
use std::alloc::{AllocError, Global};

// What most texts begin with. The names are then `nil`, `c`, `x`, `y`, `d`, `z` and `e`, with the numbers 0 to 6.
pub(crate) const CLASSES: &[u8] = b"(literalize c x y)(literalize d z)(literalize e)";

// The text without the marks `@`.
pub(crate) fn unmarked(heap: Global, text: &[u8]) -> Result<Vec<u8>, AllocError> {
    text.iter()
        .copied()
        .filter(|byte| *byte != b'@')
        .collect(heap)
}

// The place of the first `@`, and the text's length where it has none.
pub(crate) fn mark(text: &[u8]) -> usize {
    text.iter()
        .position(|byte| *byte == b'@')
        .unwrap_or(text.len())
}
