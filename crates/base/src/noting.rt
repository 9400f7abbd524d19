// Entries in the logs of a driver.
ghost use Rattle.std.specs.Prelude.{◌≡◌, ◌==◌, length, is_ok, IfErr, if◌then◌else◌, nat_le};
ghost use Rattle.compaction.specs.Compaction.{entry_of};
ghost use Rattle.compaction.specs.Replay.{replay};
ghost use Rattle.entry_log.specs.Items.{entries_of, noted};
ghost use Rattle.entry_log.specs.Kinds.{membership_kind};

use entry_log::{EntryKind, Log, Membership};
use model::{Class, Refusal};

// Gives a name a content; refused, with nothing changed, where the log has no room.
pub(crate) fn note_in<K: EntryKind>(
    log: &mut Log<K>,
    name: u32,
    content: u32,
    full: Refusal,
) -> Result<(), Refusal>
    ensures test { is_ok result ≡ nat_le (length (noted K.kind (entry_of name content) log.old)) 24 }
    ensures refused { IfErr result (λ e. e ≡ full) }
    ensures after { log.new ≡ (if is_ok result then noted K.kind (entry_of name content) log.old else log.old) }
{
    log.note(u64::from(name), u64::from(content))
        .map_err(|_| full)
}

// Whether a name is joined.
pub(crate) fn has_joined<C: Class>(roll: &Log<Membership<C>>, name: u32) -> bool
    ensures { result ≡ (replay membership_kind (entries_of roll.now) name == 1) }
{
    roll.content(u64::from(name)) == u64::from(true)
}
