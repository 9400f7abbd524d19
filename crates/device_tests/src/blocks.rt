use block::{Block, BlockOp, Disk};
use device::{Command, Device};
use model::Class;
use std::test::Fail;

fn at(op: BlockOp, address: u32, payload: &[u8]) -> Command<'_> {
    Command {
        level: 0,
        kind: u8::from(op),
        address,
        payload,
    }
}

// The reach of memories below, at and over a block, and at and over 1024 of them.
#[test]
fn reaches(rt: HostRuntime) -> Result<(), Fail> {
    let table = [
        (0, 0),
        (511, 0),
        (512, 1),
        (1023, 1),
        (1024 * 512, 1024),
        (1025 * 512, 1024),
    ];
    for (bytes, blocks) in table {
        let disk = Disk::new(vec![in rt.alloc(); 0u8; bytes]?);
        assert_eq!(rt; disk.reaches(), blocks);
    }
    Ok(())
}

// A block is written and read at addresses below the reach, and at none from there on.
#[test]
fn addresses(rt: HostRuntime) -> Result<(), Fail> {
    let mut disk = Disk::new(vec![in rt.alloc(); 7u8; 2 * 512 + 9]?);
    let mut answer = [0u8; 513];
    let written = at(BlockOp::Write, 1, &[5; 512]);
    assert_eq!(rt; disk.perform(&written, &mut answer), 0);
    for (address, byte) in [(1, 5), (0, 7)] {
        let read = at(BlockOp::Read, address, &[]);
        let length = disk.perform(&read, &mut answer);
        let told = (length, answer[0], answer[511], answer[512]);
        assert_eq!(rt; told, (512, byte, byte, 0));
    }
    let beyond = [
        at(BlockOp::Write, 2, &[5; 512]),
        at(BlockOp::Read, 2, &[]),
        at(BlockOp::Read, 3, &[]),
    ];
    for command in beyond {
        assert_eq!(rt; disk.perform(&command, &mut answer), 0);
    }
    let memory = disk.into_memory();
    assert_eq!(rt;
        memory.iter().rev().take(9).copied().max(),
        Some(7),
        "beyond the reach"
    );
    Ok(())
}

// A buffer is judged by the longest answer, whatever the request.
#[test]
fn buffers(rt: HostRuntime) {
    let mut memory = [1u8; 512];
    let mut disk = Disk::lent(&mut memory);
    let mut short = [0u8; 511];
    let mut long = [0u8; 512];
    let read = at(BlockOp::Read, 0, &[]);
    let write = at(BlockOp::Write, 0, &[2; 512]);
    assert_eq!(rt; (disk.perform(&read, &mut short), short[0]), (0, 0));
    assert_eq!(rt; disk.perform(&write, &mut short), 0);
    assert_eq!(rt; (disk.perform(&read, &mut long), long[0]), (512, 1));
}

// What the class allows: keys and values, names, kinds, payload lengths.
#[test]
fn class(rt: HostRuntime) {
    assert_eq!(rt;
        (Block::initial(1), Block::greatest(2), Block::initial(3)),
        (8, 3600, 0)
    );
    let settings_and_names = (
        [2, 3].map(|key| Block::has_setting(key)),
        [3, 4].map(|name| Block::has_name(name)),
    );
    assert_eq!(rt; settings_and_names, ([true, false], [true, false]));
    let kinds = (
        [3, 0, 4].map(|kind| Block::has_kind(kind)),
        [(2, 512), (2, 511), (1, 512)].map(|(kind, size)| Block::takes(kind, size)),
        [1, 2, 3].map(|kind| Block::is_declared(kind)),
    );
    assert_eq!(rt;
        kinds,
        ([true, false, false], [true, false, false], [true; 3])
    );
}
