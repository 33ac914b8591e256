// A number below 16: of a field in an element, or of a variable in its rule. It is made where the number is known to be
// below 16, so there is no `TryFrom`, which would ask again.
ghost use Rattle.std.specs.Prelude.{◌<◌};

#[derive(Clone, Copy)]
pub struct Place {
    pub number: u8,
    ghost ok: { number < 16 },
}
