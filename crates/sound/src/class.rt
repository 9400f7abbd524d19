// The sound class.
ghost use Rattle.std.specs.Prelude.{refl};
ghost use Rattle.sound.specs.Sounds.{sound_rules};
ghost use Rattle.sound.specs.Laws;

use crate::op::SoundOp;
use model::{Class, SettingRange};

pub struct Sound;

impl Class for Sound {
    type Op = SoundOp;

    // volume, rate code, balance
    const SETTINGS: &'static [SettingRange] = &[
        SettingRange {
            initial: 256,
            greatest: 256,
        },
        SettingRange {
            initial: 2,
            greatest: 3,
        },
        SettingRange {
            initial: 100,
            greatest: 200,
        },
    ];

    // streams
    const FIRST_NAME: u32 = 0;

    const LAST_NAME: u32 = 7;

    const ROLL_LIMIT: usize = 8;

    const LONGEST_ANSWER: usize = 8;

    ghost FIRST_NAME = { 0 };

    ghost LAST_NAME = { 7 };

    ghost ROLL_LIMIT = { 8 };

    ghost LONGEST_ANSWER = { 8 };

    ghost rules = { sound_rules };

    ghost bounds = { Laws.bounds };

    ghost repeatable = { Laws.repeatable };

    ghost limited = { refl };

    ghost answered = { refl };

    ghost named = { λ _. refl };

    ghost kinds = { λ _. refl };

    ghost lengths = { λ _ _. refl };

    ghost declares = { λ _. refl };

    fn setting_rows() -> &'static [SettingRange] {
        Self::SETTINGS
    }
}
