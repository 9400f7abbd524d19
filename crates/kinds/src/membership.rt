// The roll of a class as entries: the content is 1 where the name is joined, and 0 where it is not.
ghost use Rattle.kinds.specs.Kinds.{membership_kind};
ghost use Rattle.std.proofs.Common.{rules};

use crate::kind::EntryKind;
use model::Class;
use std::marker::PhantomData;

#[derive(Drop)]
pub struct Membership<C> {
    class: PhantomData<C>,
}

impl<C: Class> EntryKind for Membership<C> {
    ghost kind = { membership_kind };

    ghost lawful = { Prim.search rules };

    fn is_same(a: u64, b: u64) -> bool {
        a == b
    }

    fn default_content(_name: u64) -> u64 {
        0
    }
}
