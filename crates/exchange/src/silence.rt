// Why a request got no answer. An error, and no Option of a refusal: `?` makes it of a refusal, and of it a store's error.
use model::Refusal;

#[derive(Clone, Copy, PartialEq, Eq, Debug)]
pub enum Silence {
    Refused(Refusal),
    // it was lost, or still waits
    Unanswered,
}

impl From<Refusal> for Silence {
    ghost use Rattle.std.specs.Prelude.{◌≡◌};
    ghost use Rattle.exchange.specs.declared.silence.Silence.TheVariants.{Refused};

    ghost from_gives = { λ refusal silence. silence ≡ Refused refusal };

    fn from(refusal: Refusal) -> Silence {
        Silence::Refused(refusal)
    }
}
