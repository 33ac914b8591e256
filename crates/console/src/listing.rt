// Listing working memory.
ghost use Rattle.std.specs.Prelude.{◌≡◌, ◌++◌, IfOk, OnOk};
ghost use Rattle.values.specs.Naming.{held};
ghost use Rattle.rules.specs.Declarations.{classes_of};
ghost use Rattle.console.specs.Printed.{Appends};
ghost use Rattle.console.specs.Listings.{headings_of, lines_at, Lists};

use crate::lines::{Legend, class_at};
use crate::page::Page;
use facts::traits::Facts;
use orders::listing::{Heading, Listing};
use orders::ranking::highest_first;
use std::alloc::{AllocError, Global};

// What each element is listed by.
fn headings<F: Facts>(heap: Global, facts: &F) -> Result<Vec<Heading>, AllocError>
    ensures { IfOk result (λ v. v.items ≡ headings_of (F.Facts.facts facts.now)) }
{
    (0..facts.count())
        .map(|place| Heading {
            class: class_at(facts, place),
            tag: facts.tag_at(place),
        })
        .collect(heap)
}

impl Legend<'_> {
    // The lines of the elements at these places.
    fn write_elements<F: Facts>(
        &self,
        page: &mut Page,
        facts: &F,
        places: &[usize],
    ) -> Result<(), AllocError>
        ensures { OnOk result (page.new ≡ page.old ++ lines_at (held self.now.names.now) (classes_of self.now.classes.now) (F.Facts.facts facts.now) places.now) }
    {
        for place in places {
            self.write_element(page, facts, *place)?;
        }
        Ok(())
    }

    // A line for each element, the lower class symbol first, then the older time tag.
    pub fn write_memory<F: Facts>(&self, page: &mut Page, facts: &F) -> Result<(), AllocError>
        ensures { OnOk result (Appends page.old page.new (Lists (held self.now.names.now) (classes_of self.now.classes.now) (F.Facts.facts facts.now))) }
    {
        let headings = headings(page.heap(), facts)?;
        let places = highest_first(page.heap(), &Listing, &headings)?;
        self.write_elements(page, facts, &places)
    }
}
