use crate::commands::at;
use device::Device;
use model::Class;
use sound::{Sound, SoundOp, Speaker};

// The samples and the total that a speaker has after one payload at a level.
fn after(level: u32, payload: &[u8]) -> [u8; 8] {
    let mut speaker = Speaker::new();
    let mut answer = [0u8; 8];
    let _ = speaker.perform(&at(level, SoundOp::Play, payload), &mut answer);
    let _ = speaker.perform(&at(level, SoundOp::Counters, &[]), &mut answer);
    answer
}

// Half the volume rounds toward zero, sample by sample.
#[test]
fn rounding(rt: HostRuntime) {
    let table: [(u32, &[u8], [u8; 8]); 5] = [
        (128, &[0xFD, 0xFF], [1, 0, 0, 0, 0xFF, 0xFF, 0xFF, 0xFF]),
        (128, &[3, 0], [1, 0, 0, 0, 1, 0, 0, 0]),
        (128, &[3, 0, 0xFD, 0xFF], [2, 0, 0, 0, 0, 0, 0, 0]),
        (256, &[0x00, 0x80], [1, 0, 0, 0, 0x00, 0x80, 0xFF, 0xFF]),
        // silence counts
        (0, &[0x34, 0x12], [1, 0, 0, 0, 0, 0, 0, 0]),
    ];
    for (level, payload, told) in table {
        assert_eq!(rt; after(level, payload), told);
    }
}

// What the class excludes plays nothing.
#[test]
fn excluded(rt: HostRuntime) {
    let table: [(u32, &[u8]); 4] = [
        (257, &[3, 0]),
        (128, &[3, 0, 1]),
        (128, &[]),
        (256, &[1; 1026]),
    ];
    for (level, payload) in table {
        assert_eq!(rt; after(level, payload), [0; 8]);
    }
    assert_eq!(rt; after(256, &[1; 1024])[0..2] == [0, 2], true);
}

#[test]
fn class(rt: HostRuntime) {
    assert_eq!(rt;
        (Sound::initial(0), Sound::greatest(1), Sound::initial(2)),
        (256, 3, 100)
    );
    let has = (
        [7, 8].map(|name| Sound::has_name(name)),
        [2, 3].map(|kind| Sound::has_kind(kind)),
        [1, 2].map(|kind| Sound::is_declared(kind)),
    );
    assert_eq!(rt; has, ([true, false], [true, false], [false, true]));
}
