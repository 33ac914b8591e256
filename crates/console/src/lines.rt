// Writing the lines of a session.
ghost use Rattle.std.specs.Prelude.{◌≡◌, ◌++◌, OnOk};
ghost use Rattle.values.specs.Naming.{held};
ghost use Rattle.facts.specs.Model.{tag_at, fields_at};
ghost use Rattle.rules.specs.Attributes.{declared};
ghost use Rattle.rules.specs.Declarations.{classes_of};
ghost use Rattle.console.specs.Printed.{name_of, value_text, field_text, fields_text, class_symbol, element_line, memory_refused, reader_refused};

use crate::page::Page;
use facts::refusal::MemoryRefusal;
use facts::traits::Facts;
use languages::refusal::Refusal;
use rules::class::Class;
use rules::classes::Classes;
use std::alloc::AllocError;
use values::names::Names;
use values::value::{NIL, Value};

// What a line calls things by: the names of symbols, and the declared classes.
#[derive(Clone, Copy)]
pub(crate) struct Legend<'a> {
    pub names: &'a Names,
    pub classes: &'a Classes,
}

// The class symbol of the element at a place. Facts and place stay two parameters here and below: a struct of the two
// would say no more.
pub(crate) fn class_at<F: Facts>(facts: &F, place: usize) -> u8
    ensures { result ≡ class_symbol (fields_at (F.Facts.facts facts.now) place) }
{
    match facts.value_at(place, 0) {
        Value::Symbol(class) => class,
        Value::Number(_) => 0,
    }
}

// Written piece by piece and not displayed, since names are bytes and need not be text.
impl Legend<'_> {
    // The name of a symbol; nothing where it has none.
    fn write_name(&self, page: &mut Page, symbol: u8) -> Result<(), AllocError>
        ensures { OnOk result (page.new ≡ page.old ++ name_of (held self.now.names.now) symbol) }
    {
        match self.names.name(symbol) {
            Some(name) => page.write(name),
            None => Ok(()),
        }
    }

    // A symbol by its name, a number in decimal.
    fn write_value(&self, page: &mut Page, value: Value) -> Result<(), AllocError>
        ensures { OnOk result (page.new ≡ page.old ++ value_text (held self.now.names.now) value) }
    {
        match value {
            Value::Symbol(symbol) => self.write_name(page, symbol),
            Value::Number(number) => page.show(number),
        }
    }

    // ` ^ATTRIBUTE VALUE`, and nothing where the value is nil.
    fn write_field(&self, page: &mut Page, attribute: u8, value: Value) -> Result<(), AllocError>
        ensures { OnOk result (page.new ≡ page.old ++ field_text (held self.now.names.now) attribute value) }
    {
        if value.same(NIL) {
            return Ok(());
        }
        page.write(b" ^")?;
        self.write_name(page, attribute)?;
        page.write(b" ")?;
        self.write_value(page, value)
    }

    // The fields of the element at a place, in the order of its class's declaration.
    fn write_fields<F: Facts>(
        &self,
        page: &mut Page,
        class: &Class,
        facts: &F,
        place: usize,
    ) -> Result<(), AllocError>
        ensures { OnOk result (page.new ≡ page.old ++ fields_text (held self.now.names.now) 1 (declared class.now).attributes (fields_at (F.Facts.facts facts.now) place)) }
    {
        for (i, attribute) in class.attributes().iter().enumerate() {
            let value = facts.value_at(place, i + 1);
            self.write_field(page, *attribute, value)?;
        }
        Ok(())
    }

    // The line of the element at a place: `TAG: (CLASS ^ATTRIBUTE VALUE ..)`.
    pub fn write_element<F: Facts>(
        &self,
        page: &mut Page,
        facts: &F,
        place: usize,
    ) -> Result<(), AllocError>
        ensures { OnOk result (page.new ≡ page.old ++ element_line (held self.now.names.now) (classes_of self.now.classes.now) (tag_at (F.Facts.facts facts.now) place) (fields_at (F.Facts.facts facts.now) place)) }
    {
        let class = class_at(facts, place);
        page.show(facts.tag_at(place))?;
        page.write(b": (")?;
        self.write_name(page, class)?;
        if let Some(class) = self.classes.find(class) {
            self.write_fields(page, &class, facts, place)?;
        }
        page.write(b")\n")
    }
}

// The line of a memory's refusal: `refused NUMBER memory - -`. In pieces, here and below: shown as one, a line would
// ask for memory three times and not once.
pub(crate) fn write_memory_refusal(
    page: &mut Page,
    refusal: MemoryRefusal,
) -> Result<(), AllocError>
    ensures { OnOk result (page.new ≡ page.old ++ memory_refused refusal) }
{
    page.write(b"refused ")?;
    page.show(refusal.number())?;
    page.write(b" memory - -\n")
}

// The line of a reader's refusal: `refused NUMBER reader PLACE`.
pub(crate) fn write_reader_refusal(page: &mut Page, refusal: Refusal) -> Result<(), AllocError>
    ensures { OnOk result (page.new ≡ page.old ++ reader_refused refusal) }
{
    page.write(b"refused ")?;
    page.show(refusal.cause.number())?;
    page.write(b" reader ")?;
    page.show(refusal.place)?;
    page.write(b"\n")
}
