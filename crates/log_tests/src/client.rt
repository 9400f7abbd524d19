// How a user of the log hands on an entry that it has just noted.
ghost use Rattle.std.specs.Prelude.{◌≡◌, true, is_ok};
ghost use Rattle.compaction.specs.Compaction.{update, entry_of};
ghost use Rattle.entry_log.specs.Items.{handed_entries};

use entry_log::{EntryKind, Full, Log};

// Notes an entry and marks it as handed on: the entries that are handed on then follow the same history.
pub fn note_handed<K: EntryKind>(log: &mut Log<K>, name: u64, content: u64) -> Result<(), Full>
    ensures { is_ok result ≡ true → handed_entries log.new ≡ update K.kind (handed_entries log.old) (entry_of name content) }
{
    log.note(name, content)?;
    if let Some(i) = log.position(name) {
        log.hand(i);
    }
    Ok(())
}
