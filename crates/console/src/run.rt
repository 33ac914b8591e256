// A session from the bytes of its text to the bytes that it prints. Words, names and base are lent apart, as the reader
// takes them.
ghost use Rattle.std.specs.Prelude.{◌≡◌, length, IfOk, OnOk};
ghost use Rattle.words.specs.Words.{rest, text_of};
ghost use Rattle.values.specs.Elements.{fields_of, blank};
ghost use Rattle.values.specs.Naming.{held};
ghost use Rattle.facts.specs.Model.{meant};
ghost use Rattle.rules.specs.Bases.{declaring_classes, sealed_classes};
ghost use Rattle.console.specs.Printed.{Appends};
ghost use Rattle.console.specs.Sessions.{reached, DeclaresAll, left, Commands, Session};

use crate::commands::perform;
use crate::lines::{Legend, write_reader_refusal};
use crate::page::Page;
use facts::fact::Fact;
use facts::plain::PlainMemory;
use facts::traits::{MOST_ELEMENTS, Memory};
use languages::refusal::Refusal;
use reader::read::{read_command, read_declaration};
use rules::base::{Declaring, Sealed};
use std::alloc::{AllocError, Global};
use values::element::Element;
use values::names::Names;
use words::text::Words;

// Reads every declaration. That the text stays is a clause of its own, as on the calls that it makes.
fn declare_all(words: &mut Words, names: &mut Names, base: &mut Declaring) -> Result<(), Refusal>
    ensures all { DeclaresAll (length (text_of words.old)) (reached (declaring_classes base.old) (held names.old) (rest words.old)) result (reached (declaring_classes base.new) (held names.new) (rest words.new)) }
    ensures text { text_of words.new ≡ text_of words.old }
{
    while read_declaration(words, names, base)? {}
    Ok(())
}

// Reads every command and performs it; a refused form ends the session.
fn command_all<M: Memory>(
    page: &mut Page,
    words: &mut Words,
    names: &mut Names,
    base: &Sealed,
    memory: &mut M,
) -> Result<(), AllocError>
    ensures { OnOk result (Appends page.old page.new (Commands (length (text_of words.old)) (sealed_classes base.now) (left (held names.old) (rest words.old) (meant M.Facts.facts M.Memory.last M.Memory.room memory.old)) (left (held names.new) (rest words.new) (meant M.Facts.facts M.Memory.last M.Memory.room memory.new)))) }
{
    loop {
        let next = match read_command(words, names, base) {
            Ok(next) => next,
            Err(refusal) => return write_reader_refusal(page, refusal),
        };
        let Some(command) = next else {
            return Ok(());
        };
        let classes = base.classes();
        perform(page, &Legend { names, classes }, memory, command)?;
    }
}

// A memory's place before anything is put there.
fn empty_place() -> Fact
    ensures tag { result.tag ≡ 0 }
    ensures element { fields_of result.element ≡ blank 0 }
{
    Fact {
        tag: 0,
        element: Element::of_class(0),
    }
}

// What the text prints.
pub fn run(heap: Global, text: &[u8]) -> Result<Vec<u8>, AllocError>
    ensures { IfOk result (λ out. Session text.now out.items) }
{
    let mut page = Page::new(heap);
    let mut words = Words::new(text);
    let mut names = Names::new(heap)?;
    let mut base = Declaring::new(heap)?;
    if let Err(refusal) = declare_all(&mut words, &mut names, &mut base) {
        write_reader_refusal(&mut page, refusal)?;
        return Ok(page.into_bytes());
    }
    let base = base.enter().seal();
    let mut places = vec![in heap; empty_place(); MOST_ELEMENTS]?;
    let mut memory = PlainMemory::new(&mut places, 0);
    command_all(&mut page, &mut words, &mut names, &base, &mut memory)?;
    Ok(page.into_bytes())
}
