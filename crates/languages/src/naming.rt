// Looking symbols of a text up.
ghost use Rattle.values.specs.Naming.{held};
ghost use Rattle.rules.specs.Attributes.{declared};
ghost use Rattle.rules.specs.Declarations.{classes_of};
ghost use Rattle.languages.specs.Naming.{FindsClass, FindsField};

use crate::refusal::Cause;
use rules::class::Class;
use rules::classes::Classes;
use rules::place::Place;
use values::names::Names;

// The declared class with this name.
pub fn class_named(names: &Names, classes: &Classes, word: &[u8]) -> Result<Class, Cause>
    ensures { FindsClass (classes_of classes.now) (held names.now) word.now result }
{
    let number = names.find(word).ok_or(Cause::WrongName)?;
    classes.find(number).ok_or(Cause::WrongName)
}

// The field of an attribute of the class, by its name.
pub fn field_named(names: &Names, class: &Class, word: &[u8]) -> Result<Place, Cause>
    ensures { FindsField (declared class.now) (held names.now) word.now result }
{
    let number = names.find(word).ok_or(Cause::WrongName)?;
    let field = class.field_of(number).ok_or(Cause::WrongName)?;
    Ok(Place {
        number: field as u8,
    })
}
