// Why a class, an attribute or a rule is not taken.
ghost use Rattle.std.specs.Prelude.{◌≡◌};
ghost use Rattle.rules.specs.declared.refusal.NotTaken.TheVariants.{TooMany};

use rows::few::Full;

#[derive(Clone, Copy, PartialEq, Eq, Debug)]
pub enum NotTaken {
    // Another has its name.
    Twice,
    // There are as many as there may be. A rule is one too many also where the base has no room for its tests,
    // constants of choices or settings.
    TooMany,
}

impl From<Full> for NotTaken {
    ghost from_gives = { λ _ r. r ≡ TooMany };

    fn from(_full: Full) -> NotTaken {
        NotTaken::TooMany
    }
}
