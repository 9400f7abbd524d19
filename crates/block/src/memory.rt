// What a disk keeps its blocks in.
ghost use Rattle.std.specs.Prelude.{◌≡◌, ℕ, List, vec_items};
ghost use Rattle.block.specs.Memories.{written};

// Bytes that a disk owns, or that are lent to it.
pub trait Memory {
    ghost bytes: { Self → List ℕ };

    fn as_bytes(&self) -> &[u8]
        ensures { result.now ≡ bytes self.now };

    // Puts a block in the place of the bytes from `at` on; one that does not fit changes nothing.
    fn write(&mut self, at: usize, block: &[u8])
        ensures { bytes self.new ≡ written at block.now (bytes self.old) };
}

impl Memory for Vec<u8> {
    ghost bytes = { vec_items };

    fn as_bytes(&self) -> &[u8] {
        self.as_slice()
    }

    fn write(&mut self, at: usize, block: &[u8]) {
        write_into(self.as_mut_slice(), at, block);
    }
}

impl<'a> Memory for &'a mut [u8] {
    ghost bytes = { λ lent. lent.now };

    fn as_bytes(&self) -> &[u8] {
        &self[..]
    }

    fn write(&mut self, at: usize, block: &[u8]) {
        write_into(self, at, block);
    }
}

fn write_into(memory: &mut [u8], at: usize, block: &[u8])
    ensures { memory.new ≡ written at block.now memory.old }
{
    if at <= memory.len() && block.len() <= memory.len() - at {
        memory[at..at + block.len()].copy_from_slice(block);
    }
}
