// Each refusal by its number and by its name, and the pair of a failure.
ghost use Rattle.std.specs.Prelude.{◌≡◌};
ghost use Rattle.model.specs.Refusals.{code, fault_of};

use crate::refusal::{Fault, Refusal};
use std::error::Error;
use std::fmt;

impl From<Refusal> for u32 {
    ghost from_gives = { λ refusal number. number ≡ (code refusal).number };

    fn from(refusal: Refusal) -> u32 {
        match refusal {
            Refusal::Failed(_) => 1,
            Refusal::Setting => 2,
            Refusal::Value => 3,
            Refusal::Name => 4,
            Refusal::Kind => 5,
            Refusal::Address => 6,
            Refusal::Payload => 7,
            Refusal::Answer => 8,
            Refusal::Roll => 9,
            Refusal::Full => 10,
            Refusal::Room => 11,
            Refusal::Phase => 12,
            Refusal::Unfinished(_) => 13,
        }
    }
}

impl Refusal {
    // The pair, where it is a failure.
    pub fn fault(self) -> Option<Fault>
        ensures { result ≡ fault_of self }
    {
        match self {
            Refusal::Failed(fault) => Some(fault),
            _ => None,
        }
    }
}

impl fmt::Display for Fault {
    ghost use Rattle.std.specs.Prelude.{Some};
    ghost use Rattle.model.specs.Texts.{pair_text};

    ghost output = { λ fault. Some (pair_text fault) };

    fn fmt<W: fmt::Write>(&self, f: &mut fmt::Formatter<W>) -> fmt::Result {
        write!(f, "({}, {})", self.layer, self.place)
    }
}

impl fmt::Display for Refusal {
    ghost use Rattle.std.specs.Prelude.{Some};
    ghost use Rattle.model.specs.Texts.{text_of};

    ghost output = { λ refusal. Some (text_of refusal) };

    fn fmt<W: fmt::Write>(&self, f: &mut fmt::Formatter<W>) -> fmt::Result {
        match self {
            Refusal::Failed(fault) => write!(f, "FAILED {fault}"),
            Refusal::Setting => f.write_str("SETTING"),
            Refusal::Value => f.write_str("VALUE"),
            Refusal::Name => f.write_str("NAME"),
            Refusal::Kind => f.write_str("KIND"),
            Refusal::Address => f.write_str("ADDRESS"),
            Refusal::Payload => f.write_str("PAYLOAD"),
            Refusal::Answer => f.write_str("ANSWER"),
            Refusal::Roll => f.write_str("ROLL"),
            Refusal::Full => f.write_str("FULL"),
            Refusal::Room => f.write_str("ROOM"),
            Refusal::Phase => f.write_str("PHASE"),
            Refusal::Unfinished(left) => write!(f, "UNFINISHED {left}"),
        }
    }
}

impl Error for Refusal {}
