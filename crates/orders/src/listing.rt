// The order of a listing of working memory.
ghost use Rattle.orders.specs.HeadingLaws.{heading_laws};
ghost use Rattle.orders.specs.Headings.{HeadingAbove};

use crate::order::Order;

// What an element is listed by: its class symbol and its time tag. Headings compare by the class, and of one class by
// the tag.
#[derive(Clone, Copy, PartialEq, Eq, PartialOrd, Ord, Debug)]
pub struct Heading {
    pub class: u8,
    pub tag: u32,
}

// The lower class symbol stands above, and of one class the older time tag.
#[derive(Clone, Copy)]
pub struct Listing;

impl Order for Listing {
    type Ranked = Heading;

    ghost above = { λ _. HeadingAbove };

    fn stands_above(&self, a: &Heading, b: &Heading) -> bool {
        a < b
    }

    ghost laws = { λ _. heading_laws };
}
