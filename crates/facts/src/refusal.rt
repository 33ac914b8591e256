// Why a memory does not do what it is asked. Each refusal is told by its number.
ghost use Rattle.std.specs.Prelude.{◌≡◌};
ghost use Rattle.facts.specs.Model.{refusal_number};

#[derive(Clone, Copy, PartialEq, Eq, Debug)]
pub enum MemoryRefusal {
    // No element has the time tag.
    NoSuchTag = 8,
    // The last time tag is the highest that there is.
    TagsUsedUp = 10,
    // As many elements are there as the memory can hold.
    Full = 11,
}

impl MemoryRefusal {
    // The number that a refusal is told by.
    pub fn number(self) -> u8
        ensures { result ≡ refusal_number self }
    {
        self as u8
    }
}
