// A class of devices.
ghost use Rattle.std.specs.Prelude.{◌≡◌, ℕ, slice_get, is_some};
ghost use Rattle.model.specs.Kinds.{takes_of, declared_of};
ghost use Rattle.model.specs.Rules.{Rules, Bounds, Repeatable, between, has_setting, range_of, initial, greatest};

use crate::kind::Operation;
use crate::setting::SettingRange;

// No class has a longer answer, in bytes.
pub const ANSWER_LIMIT: usize = 1514;

pub trait Class {
    // The kinds of its requests.
    type Op: Operation;

    // The settings, by key from 0.
    const SETTINGS: &'static [SettingRange];
    // The first and the last name of the roll.
    const FIRST_NAME: u32;

    const LAST_NAME: u32;
    // How many names may be joined at once.
    const ROLL_LIMIT: usize;
    // The longest answer, in bytes.
    const LONGEST_ANSWER: usize;

    ghost FIRST_NAME: { ℕ };

    ghost LAST_NAME: { ℕ };

    ghost ROLL_LIMIT: { ℕ };

    ghost LONGEST_ANSWER: { ℕ };

    ghost rules: { Rules };

    // The same, with its promise: a constant that lends has none.
    fn setting_rows() -> &'static [SettingRange]
        ensures { result.now ≡ rules.settings };

    // The row of a key, if there is one.
    fn row(key: u64) -> Option<SettingRange>
        ensures { result ≡ slice_get rules.settings key }
    {
        Self::setting_rows().get(key as usize).copied()
    }

    // The row of a key, and one of zeros where there is none: it cannot fail, and `row` stands beside it.
    fn range(key: u64) -> SettingRange
        ensures { result ≡ range_of rules key }
    {
        Self::row(key).unwrap_or(SettingRange {
            initial: 0,
            greatest: 0,
        })
    }

    fn has_setting(key: u64) -> bool
        ensures { result ≡ has_setting rules key }
    {
        (key as usize) < Self::setting_rows().len()
    }

    // What a setting holds at first, and 0 where there is none.
    fn initial(key: u64) -> u64
        ensures { result ≡ initial rules key }
    {
        u64::from(Self::range(key).initial)
    }

    // The greatest value of a setting, and 0 where there is none.
    fn greatest(key: u64) -> u64
        ensures { result ≡ greatest rules key }
    {
        u64::from(Self::range(key).greatest)
    }

    fn has_name(name: u32) -> bool
        ensures { result ≡ rules.name name }
    {
        (Self::FIRST_NAME..=Self::LAST_NAME).contains(&name)
    }

    // The kind that a number stands for, if there is one.
    fn operation(kind: u8) -> Option<Self::Op>
        ensures { result ≡ Self.Op.of kind }
    {
        Self::Op::try_from(kind).ok()
    }

    fn has_kind(kind: u8) -> bool
        ensures { result ≡ rules.kind kind }
    {
        Self::operation(kind).is_some()
    }

    fn takes(kind: u8, size: usize) -> bool
        ensures { result ≡ rules.takes kind size }
    {
        Self::operation(kind).is_some_and(|op| op.takes(size))
    }

    fn is_declared(kind: u8) -> bool
        ensures { result ≡ rules.declared kind }
    {
        Self::operation(kind).is_some_and(|op| op.is_declared())
    }

    ghost bounds: { Bounds rules };

    ghost repeatable: { Repeatable rules };

    // Its constants and its kinds are those of the rules.
    ghost limited: { ROLL_LIMIT ≡ rules.limit };

    ghost answered: { LONGEST_ANSWER ≡ rules.longest };

    ghost named: { (n : ℕ) → rules.name n ≡ between FIRST_NAME LAST_NAME n };

    ghost kinds: { (k : ℕ) → rules.kind k ≡ is_some (Self.Op.of k) };

    ghost lengths: { (k n : ℕ) → rules.takes k n ≡ takes_of Self.Op.takes (Self.Op.of k) n };

    ghost declares: { (k : ℕ) → rules.declared k ≡ declared_of Self.Op.declared (Self.Op.of k) };
}
