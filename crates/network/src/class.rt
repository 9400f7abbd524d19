// The network class.
ghost use Rattle.std.specs.Prelude.{refl};
ghost use Rattle.network.specs.Networks.{network_rules};
ghost use Rattle.network.specs.Laws;

use crate::op::NetworkOp;
use model::{Class, SettingRange};

pub struct Network;

impl Class for Network {
    type Op = NetworkOp;

    // group frames, longest frame, interrupt moderation
    const SETTINGS: &'static [SettingRange] = &[
        SettingRange {
            initial: 0,
            greatest: 1,
        },
        SettingRange {
            initial: 1514,
            greatest: 1514,
        },
        SettingRange {
            initial: 0,
            greatest: 1000,
        },
    ];

    // IPv4 groups, 224.0.0.0 to 239.255.255.255
    const FIRST_NAME: u32 = 0xE0000000;

    const LAST_NAME: u32 = 0xEFFFFFFF;

    const ROLL_LIMIT: usize = 24;

    const LONGEST_ANSWER: usize = 1514;

    ghost FIRST_NAME = { 3758096384 };

    ghost LAST_NAME = { 4026531839 };

    ghost ROLL_LIMIT = { 24 };

    ghost LONGEST_ANSWER = { 1514 };

    ghost rules = { network_rules };

    ghost bounds = { Laws.bounds };

    ghost repeatable = { Laws.repeatable };

    ghost limited = { refl };

    ghost answered = { refl };

    ghost named = { λ _. refl };

    ghost kinds = { λ _. refl };

    ghost lengths = { λ _ _. refl };

    ghost declares = { λ _. refl };

    fn setting_rows() -> &'static [SettingRange] {
        Self::SETTINGS
    }
}
