// What keeps whole blocks.
ghost use Rattle.std.specs.Prelude.{ℕ, Bool, ◌-◌, List, take, Result};
ghost use Rattle.store.specs.Media.{Puts, Finds};

use crate::records::BLOCK;

pub trait Medium {
    type Error;

    // What writing one block comes to, and looking for one.
    ghost puts: { Self → ℕ → List ℕ → Result Unit Self.Error → Self → Type 0 };

    ghost looks: { Self → ℕ → List ℕ → Result Bool Self.Error → Self → Type 0 };

    fn put_block(&mut self, address: u32, block: &[u8; BLOCK]) -> Result<(), Self::Error>
        ensures { puts self.old address block.now result self.new };

    // Whether a block has these bytes.
    fn has_block(&mut self, address: u32, block: &[u8; BLOCK]) -> Result<bool, Self::Error>
        ensures { looks self.old address block.now result self.new };
}

// Writes blocks from one on, up to the first that fails; no medium has a block 2^32 - 1, so none is put there or behind.
pub fn put_blocks<M: Medium>(
    medium: &mut M,
    first: u32,
    blocks: &[[u8; BLOCK]],
) -> Result<(), M::Error>
    ensures { Puts M.Medium.puts medium.old first (take (4294967295 - first) blocks.now) result medium.new }
{
    for (address, block) in (first..u32::MAX).zip(blocks) {
        medium.put_block(address, block)?;
    }
    Ok(())
}

// Whether blocks stand there from one on; none is looked for at 2^32 - 1 or behind.
pub fn has_blocks<M: Medium>(
    medium: &mut M,
    first: u32,
    blocks: &[[u8; BLOCK]],
) -> Result<bool, M::Error>
    ensures { Finds M.Medium.looks medium.old first (take (4294967295 - first) blocks.now) result medium.new }
{
    for (address, block) in (first..u32::MAX).zip(blocks) {
        if !medium.has_block(address, block)? {
            return Ok(false);
        }
    }
    Ok(true)
}
