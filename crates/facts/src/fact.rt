// What a working memory is made of.
use values::element::Element;

// A time tag and the element that has it.
#[derive(Clone, Copy)]
pub struct Fact {
    pub tag: u32,
    pub element: Element,
}
