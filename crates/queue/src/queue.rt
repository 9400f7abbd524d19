// The memory of a queue, and what it keeps.
use crate::payloads::Payloads;
use arrayvec::ArrayVec;
use heads::Head;
use std::marker::Model;

// How many requests a queue keeps at most.
pub const MOST: usize = 16;

// How many payload bytes they have at most, in all.
pub const CAPACITY: usize = 8192;

// The heads of the requests, the oldest first, and their payloads in the same order. The payloads share
// one run of bytes: in fixed memory a buffer of 8192 bytes for each request would take eight times as much.
#[derive(Drop)]
pub struct Queue {
    pub(crate) heads: ArrayVec<Head, MOST>,
    pub(crate) payloads: Payloads,
}

// Contracts see the requests with their marks, the oldest first.
impl Model for Queue {
    ghost use Rattle.std.specs.Prelude.{List};
    ghost use Rattle.heads.specs.Kept.{Kept};

    ghost Value = { List Kept };

    ghost use Rattle.queue.specs.Layout.{requests, Whole};

    ghost view = { requests };

    ghost invariant = { Whole };
}
