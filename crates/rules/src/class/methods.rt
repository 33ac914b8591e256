// Building a class, and where its attributes stand.
ghost use Rattle.std.specs.Prelude.{◌≡◌, ◌<◌, ◌≤◌, length, MatchOption, slice_index};
ghost use Rattle.rules.specs.Attributes.{declared, new_class, field_of, answer_add, after_add};

use super::Class;
use crate::refusal::NotTaken;
use rows::short::Short;

impl Class {
    // A class without attributes.
    pub fn new(name: u8) -> Class
        ensures { declared result ≡ new_class name }
    {
        Class {
            name,
            attributes: Short::new(),
        }
    }

    // The symbol of the class.
    pub fn name(&self) -> u8
        ensures { result ≡ (declared self.now).name }
    {
        self.name
    }

    // The symbols of its attributes, in the order of the declaration.
    pub fn attributes(&self) -> &[u8]
        ensures { result.now ≡ (declared self.now).attributes }
    {
        self.attributes.as_slice()
    }

    // How many attributes the class has.
    pub fn count(&self) -> usize
        ensures { result ≡ length (declared self.now).attributes }
    {
        self.attributes().len()
    }

    // The field that an attribute has in an element: its place in the declaration, counted from 1.
    pub fn field_of(&self, attribute: u8) -> Option<usize>
        ensures { result ≡ field_of (declared self.now) attribute }
    {
        self.attributes()
            .iter()
            .position(|symbol| *symbol == attribute)
            .map(|place| place + 1)
    }

    // The attribute at a place of the declaration, counted from 0.
    pub fn attribute(&self, place: usize) -> Option<u8>
        ensures { MatchOption result (length (declared self.now).attributes ≤ place) (λ a. (place < length (declared self.now).attributes) × (a ≡ slice_index (declared self.now).attributes place)) }
    {
        self.attributes().get(place).copied()
    }

    // One attribute more.
    pub fn add(&mut self, attribute: u8) -> Result<(), NotTaken>
        ensures answer { result ≡ answer_add (declared self.old) attribute }
        ensures after { declared self.new ≡ after_add (declared self.old) attribute }
    {
        if self.field_of(attribute).is_some() {
            return Err(NotTaken::Twice);
        }
        self.attributes.push(attribute)?;
        Ok(())
    }
}
