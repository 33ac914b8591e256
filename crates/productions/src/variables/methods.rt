// Meeting a variable in a condition, and looking one up for an action.
ghost use Rattle.std.specs.Prelude.{◌≡◌, ◌<◌, true, [], length, IfOk, IfSome, None};
ghost use Rattle.std.specs.Str.{bytes_eq};
ghost use Rattle.values.specs.Firsts.{first_from};
ghost use Rattle.values.specs.Spelling.{spelling};
ghost use Rattle.productions.specs.Sofar.{first_met};
ghost use Rattle.productions.specs.Meaning.{variables_of, Finds, Meets, Gives};

use super::{Variable, Variables};
use languages::refusal::Cause;
use rows::few::Few;
use rules::place::Place;
use std::alloc::{AllocError, Global};
use values::name::Name;

impl Variables {
    // No variables yet.
    pub fn new(heap: Global) -> Result<Variables, AllocError>
        ensures { IfOk result (λ v. variables_of v ≡ []) }
    {
        Ok(Variables {
            list: Few::new(heap)?,
        })
    }

    // No variables again.
    pub fn clear(&mut self)
        ensures { variables_of self.new ≡ [] }
    {
        self.list.clear();
    }

    // The place of a variable that was met. As in `Names`, over a row of other things: one function for both would need
    // a trait of what has a name.
    fn place_of(&self, word: &[u8]) -> Option<usize>
        ensures place { result ≡ first_from (λ v. bytes_eq (spelling v.name) word.now) 0 self.now.list }
        ensures inside { IfSome result (λ place. place < length self.now.list) }
    {
        self.list
            .as_slice()
            .iter()
            .position(|variable| variable.name.as_bytes() == word)
    }

    // A variable that was met, and its number.
    fn find(&self, word: &[u8]) -> Option<(Place, Variable)>
        ensures { Finds (variables_of self.now) word.now result }
    {
        let number = self.place_of(word)?;
        let variable = self.list.as_slice()[number];
        Some((
            Place {
                number: number as u8,
            },
            variable,
        ))
    }

    // One variable more, which was not met before.
    fn add(&mut self, word: &[u8], negated: bool, condition: usize) -> Result<Place, Cause>
        requires { first_met (variables_of self.old) word.now ≡ None }
        ensures { Meets (variables_of self.old) word.now true negated condition result (variables_of self.new) }
    {
        let number = self.list.len();
        let name = Name::new(word).ok_or(Cause::OverLimit)?;
        let variable = Variable {
            name,
            negated,
            condition,
        };
        self.list.push(variable).map_err(|_| Cause::OverLimit)?;
        Ok(Place {
            number: number as u8,
        })
    }

    // A variable in a condition. Where it was not met before, it is met first there if `binds` allows that.
    pub fn meet(
        &mut self,
        word: &[u8],
        binds: bool,
        negated: bool,
        condition: usize,
    ) -> Result<Place, Cause>
        ensures { Meets (variables_of self.old) word.now binds negated condition result (variables_of self.new) }
    {
        let Some((place, met)) = self.find(word) else {
            if !binds {
                return Err(Cause::WrongVariable);
            }
            return self.add(word, negated, condition);
        };
        if met.negated && met.condition != condition {
            return Err(Cause::WrongVariable);
        }
        Ok(place)
    }

    // A variable in an action, which an unnegated condition must have.
    pub fn given(&self, word: &[u8]) -> Result<Place, Cause>
        ensures { Gives (variables_of self.now) word.now result }
    {
        let (place, met) = self.find(word).ok_or(Cause::WrongVariable)?;
        if met.negated {
            return Err(Cause::WrongVariable);
        }
        Ok(place)
    }
}
