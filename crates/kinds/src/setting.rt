// The settings of a class as entries: the name is a key, and the content its value.
ghost use Rattle.kinds.specs.Kinds.{setting_kind};
ghost use Rattle.std.proofs.Common.{rules};

use crate::kind::EntryKind;
use model::Class;
use std::marker::PhantomData;

#[derive(Drop)]
pub struct Setting<C> {
    class: PhantomData<C>,
}

impl<C: Class> EntryKind for Setting<C> {
    ghost kind = { setting_kind C.Class.rules };

    ghost lawful = { Prim.search rules };

    fn is_same(a: u64, b: u64) -> bool {
        a == b
    }

    fn default_content(name: u64) -> u64 {
        C::initial(name)
    }
}
