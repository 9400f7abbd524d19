// A kind in which many numbers are one name: those with the same last digit, which is their default.
ghost use Rattle.log_tests.specs.Digit.{last_digit};
ghost use Rattle.std.proofs.Common.{rules};

use entry_log::EntryKind;

#[derive(Drop)]
pub struct LastDigit;

impl EntryKind for LastDigit {
    ghost kind = { last_digit };

    ghost lawful = { Prim.search rules };

    fn is_same(a: u64, b: u64) -> bool {
        a % 10 == b % 10
    }

    fn default_content(name: u64) -> u64 {
        name % 10
    }
}
