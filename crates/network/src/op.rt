// The kinds of a network request.
ghost use Rattle.std.specs.Prelude.{◌≡◌};
ghost use Rattle.model.specs.Kinds.{read};
ghost use Rattle.network.specs.Networks.{kind_of, op_of, takes, declared};
ghost use Rattle.std.proofs.Common.{rules};

use arrivals::{LONGEST_FRAME, SHORTEST_FRAME};
use model::{Operation, UnknownKind};

#[derive(Clone, Copy, PartialEq, Eq, Debug)]
pub enum NetworkOp {
    Send,
    Receive,
    Counters,
}

impl From<NetworkOp> for u8 {
    ghost from_gives = { λ op kind. kind ≡ kind_of op };

    fn from(op: NetworkOp) -> u8 {
        match op {
            NetworkOp::Send => 1,
            NetworkOp::Receive => 2,
            NetworkOp::Counters => 3,
        }
    }
}

impl TryFrom<u8> for NetworkOp {
    type Error = UnknownKind;

    ghost try_from_gives = { λ kind op. op ≡ read (op_of kind) kind };

    fn try_from(kind: u8) -> Result<NetworkOp, UnknownKind> {
        match kind {
            1 => Ok(NetworkOp::Send),
            2 => Ok(NetworkOp::Receive),
            3 => Ok(NetworkOp::Counters),
            _ => Err(UnknownKind { kind }),
        }
    }
}

impl Operation for NetworkOp {
    ghost of = { op_of };

    ghost takes = { takes };

    ghost declared = { declared };

    ghost decodes = { Prim.search rules };

    // A frame has 14 bytes of header at least, and 1514 in all at most.
    fn takes(self, size: usize) -> bool {
        match self {
            NetworkOp::Send => (SHORTEST_FRAME..=LONGEST_FRAME).contains(&size),
            NetworkOp::Receive | NetworkOp::Counters => size == 0,
        }
    }

    // Only the counters can be asked for twice to the same effect.
    fn is_declared(self) -> bool {
        match self {
            NetworkOp::Send | NetworkOp::Receive => false,
            NetworkOp::Counters => true,
        }
    }
}
