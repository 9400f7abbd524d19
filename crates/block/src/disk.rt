// A disk over memory of any length. Its reach is the whole blocks of the memory, at most 1024; the bytes
// beyond them are never touched.
ghost use Rattle.std.specs.Prelude.{◌≡◌, ◌<◌, length};
ghost use Rattle.device.specs.Performing.{Performed, outcome};
ghost use Rattle.block.specs.Blocks.{block_rules, block_at};
ghost use Rattle.block.specs.Disks.{reach_of, blocks_of, beyond};
ghost use Rattle.block.specs.Memories.{stands_on, memory_of};

use crate::class::Block;
use crate::memory::Memory;
use crate::op::BlockOp;
use device::{Command, Device, permitted, put_answer};

// How many bytes a block has.
pub const BLOCK: usize = 512;

const MOST_BLOCKS: usize = 1024;

fn read_block(memory: &[u8], address: u32) -> &[u8]
    requires { address < reach_of (length memory.now) }
    ensures bytes { result.now ≡ block_at address (blocks_of memory.now).memory }
    ensures len { length result.now ≡ 512 }
{
    let at = address as usize * BLOCK;
    &memory[at..at + BLOCK]
}

// A disk over memory of its own, or over memory that is lent to it.
#[derive(Drop)]
pub struct Disk<M = Vec<u8>> {
    memory: M,
}

// A disk over memory that is lent to it.
pub type LentDisk<'a> = Disk<&'a mut [u8]>;

impl Disk<Vec<u8>> {
    // A disk over memory of its own. `lent` differs in the memory alone: each has a clause about its own.
    pub fn new(memory: Vec<u8>) -> Disk<Vec<u8>>
        ensures { memory_of result ≡ memory.items }
    {
        Disk { memory }
    }

    // The memory, with the bytes beyond the reach as they were given.
    pub fn into_memory(self) -> Vec<u8>
        ensures { result.items ≡ memory_of self }
    {
        self.memory
    }
}

impl<'a> Disk<&'a mut [u8]> {
    // A disk over memory that is lent to it, and that its owner has back afterwards.
    pub fn lent(memory: &'a mut [u8]) -> LentDisk<'a>
        ensures { (stands_on result).now ≡ memory.old }
    {
        LentDisk { memory }
    }
}

impl<M: Memory> Device for Disk<M> {
    type C = Block;

    ghost reach = { λ d. reach_of (length (M.bytes (stands_on d))) };

    ghost contents = { λ d. blocks_of (M.bytes (stands_on d)) };

    fn reaches(&self) -> u32 {
        (self.memory.as_bytes().len() / BLOCK).min(MOST_BLOCKS) as u32
    }

    fn perform(&mut self, command: &Command<'_>, answer: &mut [u8]) -> usize
        ensures performed { Performed (reach_of (length (M.bytes (stands_on self.old)))) answer.old (outcome block_rules (reach_of (length (M.bytes (stands_on self.old)))) (blocks_of (M.bytes (stands_on self.old))) command.now.level command.now.kind command.now.address command.now.payload.now (length answer.old)) (reach_of (length (M.bytes (stands_on self.new)))) (blocks_of (M.bytes (stands_on self.new))) answer.new result }
        ensures beyond { beyond (M.bytes (stands_on self.new)) ≡ beyond (M.bytes (stands_on self.old)) }
    {
        match permitted::<Block>(self.reaches(), command, answer.len()) {
            Some(BlockOp::Read) => {
                put_answer(answer, read_block(self.memory.as_bytes(), command.address))
            }
            Some(BlockOp::Write) => {
                self.memory
                    .write(command.address as usize * BLOCK, command.payload);
                0
            }
            Some(BlockOp::Flush) | None => 0,
        }
    }
}
