// The kinds of a block request.
ghost use Rattle.std.specs.Prelude.{◌≡◌, true};
ghost use Rattle.model.specs.Kinds.{read};
ghost use Rattle.block.specs.Blocks.{kind_of, op_of, takes};
ghost use Rattle.std.proofs.Common.{rules};

use crate::disk::BLOCK;
use model::{Operation, UnknownKind};

#[derive(Clone, Copy, PartialEq, Eq, Debug)]
pub enum BlockOp {
    Read,
    Write,
    Flush,
}

impl From<BlockOp> for u8 {
    ghost from_gives = { λ op kind. kind ≡ kind_of op };

    fn from(op: BlockOp) -> u8 {
        match op {
            BlockOp::Read => 1,
            BlockOp::Write => 2,
            BlockOp::Flush => 3,
        }
    }
}

impl TryFrom<u8> for BlockOp {
    type Error = UnknownKind;

    ghost try_from_gives = { λ kind op. op ≡ read (op_of kind) kind };

    fn try_from(kind: u8) -> Result<BlockOp, UnknownKind> {
        match kind {
            1 => Ok(BlockOp::Read),
            2 => Ok(BlockOp::Write),
            3 => Ok(BlockOp::Flush),
            _ => Err(UnknownKind { kind }),
        }
    }
}

impl Operation for BlockOp {
    ghost of = { op_of };

    ghost takes = { takes };

    ghost declared = { λ _. true };

    ghost decodes = { Prim.search rules };

    fn takes(self, size: usize) -> bool {
        match self {
            BlockOp::Read | BlockOp::Flush => size == 0,
            BlockOp::Write => size == BLOCK,
        }
    }

    // Performing any of them twice is as performing it once.
    fn is_declared(self) -> bool {
        true
    }
}
