// A declared class of elements.
use rows::short::Short;

// How many attributes a class may have.
pub const MOST_ATTRIBUTES: usize = 15;

// The symbol of the class, and the symbols of its attributes in the order of the declaration, at most fifteen.
#[derive(Clone, Copy)]
pub struct Class {
    name: u8,
    attributes: Short<MOST_ATTRIBUTES>,
}

mod methods;
