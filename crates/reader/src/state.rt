// What the reader of a form has read, and so what may come next.
use crate::form::{Command, Phase, Taken};
use rules::class::Class;
use rules::place::Place;
use values::element::Element;

// The element that a make has filled so far, and its class.
#[derive(Clone, Copy)]
pub(crate) struct Filling {
    pub class: Class,
    pub element: Element,
}

// What may come next. The states are data, and no closures, since the proofs speak of what each may lead to.
#[derive(Clone, Copy)]
pub(crate) enum State {
    // `(`
    Opening(Phase),
    // the word that says which form of the phase it is
    Head(Phase),
    // the class of a declaration
    ClassName,
    // an attribute of the class, or `)`
    Attributes(Class),
    // the class of an element to make
    ElementClass,
    // `^` or `)`
    Pairs(Filling),
    // an attribute of the element's class
    Attribute(Filling),
    // the value of a field
    FieldValue(Filling, Place),
    // a time tag, or `*`
    Tag,
    // `)`
    Closing(Command),
}

// What a word does that is not refused: it leads on, or it ends the form. An enum of its own: both outcomes carry
// something, and neither is an error.
#[derive(Clone, Copy)]
pub(crate) enum Step {
    Onward(State),
    Whole(Taken),
}
