// What a form asks for.
use rules::class::Class;
use values::element::Element;

// Which forms a text may have next: declarations come first, then commands. A value, since a type for each phase would
// need a reader for each.
#[derive(Clone, Copy, PartialEq, Eq)]
pub enum Phase {
    Declaring,
    Commanding,
}

// What a command asks for.
#[derive(Clone, Copy)]
pub enum Command {
    // Make this element.
    Make(Element),
    // Remove the element with this time tag.
    Remove(i32),
    // Remove every element.
    RemoveAll,
    // List working memory.
    ListMemory,
}

// A form that was read whole.
#[derive(Clone, Copy)]
pub(crate) enum Taken {
    Declaration(Class),
    Commanded(Command),
}
