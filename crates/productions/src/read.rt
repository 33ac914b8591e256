// Reading one production. Words, names and base are lent apart, and the text has a clause of its own, as in `reader`.
ghost use Rattle.std.specs.Prelude.{◌≡◌, length};
ghost use Rattle.words.specs.Words.{rest, text_of};
ghost use Rattle.values.specs.Naming.{held};
ghost use Rattle.rules.specs.Bases.{entering_classes, entering_rules};
ghost use Rattle.languages.specs.Machines.{run};
ghost use Rattle.productions.specs.Machine.{at_opening, turned};
ghost use Rattle.productions.specs.Reading.{ReadsProduction, ProductionsSettled, Reads, Drafts};
ghost use Rattle.productions.specs.Said.{Said};
ghost use Rattle.productions.specs.Kept.{RulesKept};

use crate::draft::Draft;
use crate::state::{State, Step};
use crate::trouble::Trouble;
use languages::refusal::{Cause, Refusal};
use languages::text::{check_length, form_comes};
use rules::base::Entering;
use rules::rule::Rule;
use std::alloc::Global;
use values::names::Names;
use words::text::Words;

impl Draft {
    // Reads on to the end of a production. Not one with the loop of `reader`: this one fills a draft and can want
    // memory, and a trait for both would be longer than the two.
    fn read(&mut self, words: &mut Words, names: &mut Names, base: &Entering) -> Result<(), Trouble>
        ensures { Reads words.old (held names.old) result (held names.new) self.new words.new (run (turned (entering_classes base.now) (entering_rules base.now)) (at_opening (held names.old)) (rest words.old)) }
    {
        let end = words.text().len();
        let mut state = State::Opening;
        while let Some(word) = words.next() {
            let step = self.turn(state, &word.token, names, base);
            match step.map_err(|halt| halt.at(word.place))? {
                Step::Onward(next) => state = next,
                Step::Whole => return Ok(()),
            }
        }
        Err(Trouble::Refused(Refusal {
            cause: Cause::UnexpectedWord,
            place: end,
        }))
    }
}

// Reads a production as a draft; where there is none, neither the words nor the names move. Of its own, as the loop is.
fn read_draft(
    words: &mut Words,
    names: &mut Names,
    base: &Entering,
    heap: Global,
) -> Result<Draft, Trouble>
    ensures { Drafts (entering_classes base.now) (entering_rules base.now) words.old (held names.old) result (held names.new) words.new }
{
    let mut draft = Draft::new(heap)?;
    let count = names.count();
    let mut ahead = *words;
    if let Err(trouble) = draft.read(&mut ahead, names, base) {
        names.keep(count);
        return Err(trouble);
    }
    *words = ahead;
    Ok(draft)
}

// Reads a production into the base; false where what comes next is none, or nothing is left.
pub fn read_production(
    words: &mut Words,
    names: &mut Names,
    base: &mut Entering,
    heap: Global,
) -> Result<bool, Trouble>
    ensures reads { ReadsProduction (length (text_of words.old)) (entering_classes base.old) (entering_rules base.old) (held names.old) (rest words.old) result (entering_rules base.new) (held names.new) (rest words.new) }
    ensures classes { entering_classes base.new ≡ entering_classes base.old }
    ensures text { text_of words.new ≡ text_of words.old }
{
    check_length(words)?;
    if !form_comes(words, b"p") {
        return Ok(false);
    }
    let Draft {
        name,
        conditions,
        actions,
        ..
    } = read_draft(words, names, base, heap)?;
    base.add(Rule {
        name,
        conditions,
        actions,
    })
    .unwrap();
    Ok(true)
}

// What the contract of the call says leaves no choice but want of memory: only one answer fits the words.
pub fn productions_are_settled()
    ensures { ProductionsSettled }
{}

// Which words spell a production, and which symbols get names, depends on the production alone.
pub fn productions_are_said()
    ensures { Said }
{}

// Nothing is wrong with the words of a production exactly where it keeps the rules.
pub fn productions_keep_the_rules()
    ensures { RulesKept }
{}
