// What a plain memory answers and does.
ghost use Rattle.std.specs.Prelude.{◌≡◌, min, [], length};
ghost use Rattle.facts.specs.Model.{answer_add, after_add, answer_remove, after_remove, after_clear};
ghost use Rattle.facts.specs.Plain.{places_of, plain_facts, plain_last, plain_room, plain_small, plain_model, RestKept};

use super::PlainMemory;
use crate::fact::Fact;
use crate::refusal::MemoryRefusal;
use crate::traits::{Facts, LAST_TAG, MOST_ELEMENTS, Memory, place_of};
use values::element::Element;
use values::value::{NIL, Value};

impl<'a> PlainMemory<'a> {
    // An empty memory over these places, of which it uses at most 256. The first element gets the tag after `last`.
    pub fn new(places: &'a mut [Fact], last: u32) -> PlainMemory<'a>
        ensures facts { plain_facts result ≡ [] }
        ensures last { plain_last result ≡ last }
        ensures room { plain_room result ≡ min (length places.old) 256 }
        ensures places { places_of result ≡ places.old }
    {
        PlainMemory {
            places,
            count: 0,
            last,
        }
    }

    // The pairs, oldest first.
    fn held(&self) -> &[Fact]
        ensures { result.now ≡ plain_facts self.now }
    {
        &self.places[..self.count]
    }
}

impl Facts for PlainMemory<'_> {
    ghost facts = { plain_facts };

    fn count(&self) -> usize {
        self.count
    }

    fn tag_at(&self, place: usize) -> u32 {
        self.held().get(place).map_or(0, |fact| fact.tag)
    }

    fn value_at(&self, place: usize, field: usize) -> Value {
        self.held()
            .get(place)
            .map_or(NIL, |fact| fact.element.value(field))
    }
}

// Each call also says what becomes of the places past the pairs: they are left as they were.
impl Memory for PlainMemory<'_> {
    ghost last = { plain_last };

    ghost room = { plain_room };

    fn capacity(&self) -> usize {
        self.places.len().min(MOST_ELEMENTS)
    }

    fn last_tag(&self) -> u32 {
        self.last
    }

    fn add(&mut self, element: &Element) -> Result<u32, MemoryRefusal>
        ensures answer { result ≡ answer_add (plain_model self.old) }
        ensures after { plain_model self.new ≡ after_add (plain_model self.old) element.now }
        ensures rest { RestKept self.old self.new }
    {
        if self.last >= LAST_TAG {
            return Err(MemoryRefusal::TagsUsedUp);
        }
        if self.count == self.capacity() {
            return Err(MemoryRefusal::Full);
        }
        let tag = self.last + 1;
        self.places[self.count] = Fact {
            tag,
            element: *element,
        };
        self.count += 1;
        self.last = tag;
        Ok(tag)
    }

    fn remove(&mut self, tag: u32) -> Result<(), MemoryRefusal>
        ensures answer { result ≡ answer_remove (plain_model self.old) tag }
        ensures after { plain_model self.new ≡ after_remove (plain_model self.old) tag }
        ensures rest { RestKept self.old self.new }
    {
        let place = place_of(self, tag).ok_or(MemoryRefusal::NoSuchTag)?;
        self.places.copy_within(place + 1..self.count, place);
        self.count -= 1;
        Ok(())
    }

    fn clear(&mut self)
        ensures after { plain_model self.new ≡ after_clear (plain_model self.old) }
        ensures rest { RestKept self.old self.new }
    {
        self.count = 0;
    }

    ghost small = { plain_small };
}
