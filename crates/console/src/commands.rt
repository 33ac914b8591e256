// Performing the commands of a session.
ghost use Rattle.std.specs.Prelude.{◌≡◌, OnOk};
ghost use Rattle.values.specs.Naming.{held};
ghost use Rattle.facts.specs.Model.{meant};
ghost use Rattle.rules.specs.Declarations.{classes_of};
ghost use Rattle.console.specs.Printed.{Appends};
ghost use Rattle.console.specs.Performed.{answer_removing, after_removing, after_command, Prints};

use crate::lines::{Legend, write_memory_refusal};
use crate::page::Page;
use facts::refusal::MemoryRefusal;
use facts::traits::Memory;
use reader::form::Command;
use std::alloc::AllocError;

// Removes the element with a time tag. A number below 1 counts as a tag that no element has, so one test serves for 0
// and for what is below.
fn remove<M: Memory>(memory: &mut M, tag: i32) -> Result<(), MemoryRefusal>
    ensures answer { result ≡ answer_removing (meant M.Facts.facts M.Memory.last M.Memory.room memory.old) tag }
    ensures after { meant M.Facts.facts M.Memory.last M.Memory.room memory.new ≡ after_removing (meant M.Facts.facts M.Memory.last M.Memory.room memory.old) tag }
{
    if tag < 1 {
        return Err(MemoryRefusal::NoSuchTag);
    }
    memory.remove(tag as u32)
}

// Performs a command, and writes what it prints.
pub(crate) fn perform<M: Memory>(
    page: &mut Page,
    legend: &Legend,
    memory: &mut M,
    command: Command,
) -> Result<(), AllocError>
    ensures after { meant M.Facts.facts M.Memory.last M.Memory.room memory.new ≡ after_command (meant M.Facts.facts M.Memory.last M.Memory.room memory.old) command }
    ensures prints { OnOk result (Appends page.old page.new (Prints (held legend.now.names.now) (classes_of legend.now.classes.now) (meant M.Facts.facts M.Memory.last M.Memory.room memory.old) command)) }
{
    let answer = match command {
        Command::Make(element) => memory.add(&element).map(|_tag| ()),
        Command::Remove(tag) => remove(memory, tag),
        Command::RemoveAll => {
            memory.clear();
            Ok(())
        }
        Command::ListMemory => return legend.write_memory(page, memory),
    };
    // No `or_else`: what a closure leaves of the page is lost to the proof.
    match answer {
        Ok(()) => Ok(()),
        Err(refusal) => write_memory_refusal(page, refusal),
    }
}
