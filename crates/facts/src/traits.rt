// Facts, which can be read, and memories, which can also be written.
ghost use Rattle.std.specs.Prelude.{◌≡◌, ℕ, ◌≤◌, List, length};
ghost use Rattle.facts.specs.declared.fact.Fact.{Fact};
ghost use Rattle.facts.specs.Model.{meant, tag_at, value_at, find_tag, answer_add, after_add, answer_remove, after_remove, after_clear};
ghost use Rattle.facts.specs.Laws.{MemoryLaws};

use crate::refusal::MemoryRefusal;
use values::element::Element;
use values::value::Value;

// The highest time tag.
pub const LAST_TAG: u32 = 16_777_215;

// The most elements that any memory holds.
pub const MOST_ELEMENTS: usize = 256;

// Elements with their time tags, oldest first. Places and fields are counted from 0.
pub trait Facts {
    // The pairs of time tag and element, oldest first.
    ghost facts: { Self → List Fact };

    // How many there are.
    fn count(&self) -> usize
        ensures { result ≡ length (facts self.now) };

    // The time tag at a place, 0 past the last.
    fn tag_at(&self, place: usize) -> u32
        ensures { result ≡ tag_at (facts self.now) place };

    // The value of a field at a place, nil past the last place or the last field.
    fn value_at(&self, place: usize, field: usize) -> Value
        ensures { result ≡ value_at (facts self.now) place field };
}

// Facts that can be added and removed. What a call leaves is said of all three parts at once: the pairs, the last
// time tag and the capacity. `meant` puts them together in each clause: one more ghost member for all three would need
// a law that says what it is, and its proof in each memory.
pub trait Memory: Facts {
    // The last time tag that was given.
    ghost last: { Self → ℕ };

    // How many elements the memory can hold.
    ghost room: { Self → ℕ };

    // How many elements the memory can hold.
    fn capacity(&self) -> usize
        ensures { result ≡ room self.now };

    // The last time tag that was given.
    fn last_tag(&self) -> u32
        ensures { result ≡ last self.now };

    // Adds an element after all others under the next time tag, and answers that tag.
    fn add(&mut self, element: &Element) -> Result<u32, MemoryRefusal>
        ensures answer { result ≡ answer_add (meant Self.Facts.facts last room self.old) }
        ensures after { meant Self.Facts.facts last room self.new ≡ after_add (meant Self.Facts.facts last room self.old) element.now };

    // Removes the first element that has the time tag.
    fn remove(&mut self, tag: u32) -> Result<(), MemoryRefusal>
        ensures answer { result ≡ answer_remove (meant Self.Facts.facts last room self.old) tag }
        ensures after { meant Self.Facts.facts last room self.new ≡ after_remove (meant Self.Facts.facts last room self.old) tag };

    // Removes every element. The last time tag stays.
    fn clear(&mut self)
        ensures { meant Self.Facts.facts last room self.new ≡ after_clear (meant Self.Facts.facts last room self.old) };

    // No memory can hold more than 256.
    ghost small: { (m : Self) → room m ≤ 256 };
}

// The first place that has the time tag.
pub fn place_of<F: Facts>(facts: &F, tag: u32) -> Option<usize>
    ensures { result ≡ find_tag (F.Facts.facts facts.now) tag }
{
    (0..facts.count()).find(|place| facts.tag_at(*place) == tag)
}

// What the equations of the clauses above say of every memory.
pub fn memory_laws()
    ensures { MemoryLaws }
{}
