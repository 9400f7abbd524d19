// What a log does, on examples.
use crate::digit::LastDigit;
use block::Block;
use compaction::Entry;
use entry_log::{Full, Item, Log, Membership, Setting};
use std::test::Fail;

fn item(name: u64, content: u64, handed: bool) -> Option<Item> {
    Some(Item {
        entry: Entry { name, content },
        handed,
    })
}

// Setting 2 is back at its default, and the later of two entries stands for setting 1.
#[test]
fn history_compacts(rt: HostRuntime) -> Result<(), Fail> {
    let history = [
        Entry {
            name: 1,
            content: 16,
        },
        Entry {
            name: 2,
            content: 5,
        },
        Entry {
            name: 1,
            content: 20,
        },
        Entry {
            name: 2,
            content: 0,
        },
    ];
    let log: Log<Setting<Block>> = Log::from_entries(&history)?;
    assert_eq!(rt; log.len(), 1);
    assert_eq!(rt; log.entry(0), item(1, 20, false));
    assert_eq!(rt; log.entry(1), None);
    assert_eq!(rt; log.content(1), 20);
    assert_eq!(rt; log.content(2), 0);
    Ok(())
}

#[test]
fn notes_compact(rt: HostRuntime) -> Result<(), Fail> {
    let mut log: Log<Setting<Block>> = Log::new();
    log.note(1, 16)?;
    log.note(2, 5)?;
    log.note(1, 20)?;
    log.note(2, 0)?;
    assert_eq!(rt; log.len(), 1);
    assert_eq!(rt; log.entry(0), item(1, 20, false));
    // the initial value of setting 1
    log.note(1, 8)?;
    assert_eq!(rt; log.len(), 0);
    assert_eq!(rt; log.content(1), 8);
    Ok(())
}

#[test]
fn noted_name_moves_to_the_end(rt: HostRuntime) -> Result<(), Fail> {
    let mut log: Log<Membership<Block>> = Log::new();
    log.note(3, 1)?;
    log.note(4, 1)?;
    log.note(3, 1)?;
    assert_eq!(rt; log.entry(0), item(4, 1, false));
    assert_eq!(rt; log.entry(1), item(3, 1, false));
    assert_eq!(rt; log.position(3), Some(1));
    log.note(4, 0)?;
    assert_eq!(rt; log.position(4), None);
    assert_eq!(rt; log.position(3), Some(0));
    Ok(())
}

#[test]
fn same_names_are_one_name(rt: HostRuntime) -> Result<(), Fail> {
    let mut log: Log<LastDigit> = Log::new();
    log.note(13, 5)?;
    log.note(23, 7)?;
    assert_eq!(rt; log.len(), 1);
    assert_eq!(rt; log.entry(0), item(23, 7, false));
    assert_eq!(rt; log.content(43), 7);
    log.note(33, 3)?;
    assert_eq!(rt; log.len(), 0);
    assert_eq!(rt; log.content(43), 3);
    Ok(())
}

#[test]
fn marks_stay_with_their_entries(rt: HostRuntime) -> Result<(), Fail> {
    let mut log: Log<Membership<Block>> = Log::new();
    log.note(3, 1)?;
    log.note(4, 1)?;
    log.note(5, 1)?;
    log.hand(0);
    log.hand(2);
    log.hand(7);
    assert_eq!(rt; log.unhanded(), 1);
    assert_eq!(rt; log.first_unhanded(), Some(1));
    log.note(3, 1)?;
    assert_eq!(rt; log.entry(0), item(4, 1, false));
    assert_eq!(rt; log.entry(1), item(5, 1, true));
    assert_eq!(rt; log.entry(2), item(3, 1, false));
    log.unhand_all();
    assert_eq!(rt; log.unhanded(), 3);
    Ok(())
}

#[test]
fn full_log_refuses_and_stays(rt: HostRuntime) -> Result<(), Fail> {
    let mut log: Log<Membership<Block>> = Log::new();
    for name in 0..24 {
        log.note(name, 1)?;
    }
    assert_eq!(rt; log.note(24, 1), Err(Full));
    assert_eq!(rt; log.len(), 24);
    assert_eq!(rt; log.entry(23), item(23, 1, false));
    log.note(24, 0)?;
    log.note(5, 1)?;
    assert_eq!(rt; log.position(5), Some(23));
    log.note(5, 0)?;
    log.note(24, 1)?;
    assert_eq!(rt; log.position(24), Some(23));
    log.clear();
    assert_eq!(rt; log.len(), 0);
    Ok(())
}
