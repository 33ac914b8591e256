// The reader of a text's words, and its state.
ghost use Rattle.std.specs.Prelude.{◌≤◌, length};

// Between words, in the plain word that began at a place, or in a comment.
#[derive(Clone, Copy, PartialEq, Eq, Debug)]
enum State {
    Between,
    Within(usize),
    Comment,
}

// The words of a text from the byte at `at` on. A copy reads on by itself.
#[derive(Clone, Copy)]
pub struct Words<'a> {
    text: &'a [u8],
    at: usize,
    ghost within: { at ≤ length text.now },
}

mod methods;
mod turn;
