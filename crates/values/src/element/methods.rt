// Making an element, and setting and reading its fields.
ghost use Rattle.std.specs.Prelude.{◌≡◌, slice_index_or, slice_set};
ghost use Rattle.values.specs.Elements.{blank, nil, fields_of};

use super::{Element, FIELDS};
use crate::value::{NIL, Value};

impl Element {
    // An element of a class, with every other field nil.
    pub fn of_class(class: u8) -> Element
        ensures { fields_of result ≡ blank class }
    {
        let mut fields = [NIL; FIELDS];
        fields[0] = Value::Symbol(class);
        Element { fields }
    }

    // Sets a field; a number past the last field sets none. By an index: after a write through `get_mut` nothing is
    // known of the array.
    pub fn set(&mut self, field: usize, value: Value)
        ensures { fields_of self.new ≡ slice_set (fields_of self.old) field value }
    {
        if field < FIELDS {
            self.fields[field] = value;
        }
    }

    // The value of a field, nil past the last.
    pub fn value(&self, field: usize) -> Value
        ensures { result ≡ slice_index_or (fields_of self.now) field nil }
    {
        match self.fields.get(field) {
            Some(value) => *value,
            None => NIL,
        }
    }
}
