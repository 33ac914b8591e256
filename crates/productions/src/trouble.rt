// Why no production was read.
ghost use Rattle.std.specs.Prelude.{◌≡◌};
ghost use Rattle.productions.specs.declared.trouble.Trouble.TheVariants.{Refused, NoMemory};

use languages::refusal::Refusal;
use std::alloc::AllocError;

#[derive(Clone, Copy, Debug)]
pub enum Trouble {
    // The text breaks a rule.
    Refused(Refusal),
    // There was no memory for it.
    NoMemory,
}

impl From<Refusal> for Trouble {
    ghost from_gives = { λ x t. t ≡ Refused x };

    fn from(refusal: Refusal) -> Trouble {
        Trouble::Refused(refusal)
    }
}

impl From<AllocError> for Trouble {
    ghost from_gives = { λ _ t. t ≡ NoMemory };

    fn from(_error: AllocError) -> Trouble {
        Trouble::NoMemory
    }
}
