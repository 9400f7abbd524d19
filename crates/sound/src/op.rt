// The kinds of a sound request.
ghost use Rattle.std.specs.Prelude.{◌≡◌};
ghost use Rattle.model.specs.Kinds.{read};
ghost use Rattle.sound.specs.Sounds.{kind_of, op_of, takes, declared};
ghost use Rattle.std.proofs.Common.{rules};

use model::{Operation, UnknownKind};

#[derive(Clone, Copy, PartialEq, Eq, Debug)]
pub enum SoundOp {
    Play,
    Counters,
}

impl From<SoundOp> for u8 {
    ghost from_gives = { λ op kind. kind ≡ kind_of op };

    fn from(op: SoundOp) -> u8 {
        match op {
            SoundOp::Play => 1,
            SoundOp::Counters => 2,
        }
    }
}

impl TryFrom<u8> for SoundOp {
    type Error = UnknownKind;

    ghost try_from_gives = { λ kind op. op ≡ read (op_of kind) kind };

    fn try_from(kind: u8) -> Result<SoundOp, UnknownKind> {
        match kind {
            1 => Ok(SoundOp::Play),
            2 => Ok(SoundOp::Counters),
            _ => Err(UnknownKind { kind }),
        }
    }
}

impl Operation for SoundOp {
    ghost of = { op_of };

    ghost takes = { takes };

    ghost declared = { declared };

    ghost decodes = { Prim.search rules };

    // Whole samples, 1 to 512 of them, or nothing.
    fn takes(self, size: usize) -> bool {
        match self {
            SoundOp::Play => size % 2 == 0 && (2..=1024).contains(&size),
            SoundOp::Counters => size == 0,
        }
    }

    // Only the counters can be asked for twice to the same effect.
    fn is_declared(self) -> bool {
        match self {
            SoundOp::Play => false,
            SoundOp::Counters => true,
        }
    }
}
