// The block class.
ghost use Rattle.std.specs.Prelude.{refl};
ghost use Rattle.block.specs.Blocks.{block_rules};
ghost use Rattle.block.specs.Laws;

use crate::op::BlockOp;
use model::{Class, SettingRange};

pub struct Block;

impl Class for Block {
    type Op = BlockOp;

    // write cache, read-ahead in blocks, seconds until idle
    const SETTINGS: &'static [SettingRange] = &[
        SettingRange {
            initial: 0,
            greatest: 1,
        },
        SettingRange {
            initial: 8,
            greatest: 64,
        },
        SettingRange {
            initial: 0,
            greatest: 3600,
        },
    ];

    // partitions
    const FIRST_NAME: u32 = 0;

    const LAST_NAME: u32 = 3;

    const ROLL_LIMIT: usize = 4;

    const LONGEST_ANSWER: usize = 512;

    ghost FIRST_NAME = { 0 };

    ghost LAST_NAME = { 3 };

    ghost ROLL_LIMIT = { 4 };

    ghost LONGEST_ANSWER = { 512 };

    ghost rules = { block_rules };

    ghost bounds = { Laws.bounds };

    ghost repeatable = { Laws.repeatable };

    ghost limited = { refl };

    ghost answered = { refl };

    ghost named = { λ _. refl };

    ghost kinds = { λ _. refl };

    ghost lengths = { λ _ _. refl };

    ghost declares = { Laws.declares };

    fn setting_rows() -> &'static [SettingRange] {
        Self::SETTINGS
    }
}
