use crate::commands::at;
use device::Device;
use model::Class;
use network::{
    Network, NetworkOp, Survey, Wire, count_frames, frames_in, is_group, next_arrival, split_frame,
};
use std::alloc::{AllocError, Global};
use std::test::Fail;

// Arrivals of one frame: its length, and so many bytes of one value.
fn arrival(heap: Global, length: u16, bytes: usize, value: u8) -> Result<Vec<u8>, AllocError> {
    let mut arrivals = length.to_be_bytes().to_vec(heap)?;
    let frame = vec![in heap; value; bytes]?;
    arrivals.extend_from_slice(&frame)?;
    Ok(arrivals)
}

fn receive(wire: &mut Wire, level: u32, answer: &mut [u8]) -> usize {
    wire.perform(&at(level, NetworkOp::Receive, &[]), answer)
}

// Of two frames of 14 bytes, the first to a group, level 0 takes the second and level 1 the first.
#[test]
fn groups(rt: HostRuntime) -> Result<(), Fail> {
    let mut arrivals = arrival(rt.alloc(), 14, 14, 1)?;
    arrivals.extend_from_slice(&arrival(rt.alloc(), 14, 14, 2)?)?;
    let mut answer = [9u8; 1514];
    let mut alone = Wire::new(arrivals.clone()?);
    assert_eq!(rt;
        (receive(&mut alone, 0, &mut answer), answer[0], answer[14]),
        (14, 2, 9)
    );
    assert_eq!(rt; receive(&mut alone, 0, &mut answer), 0);
    let mut both = Wire::new(arrivals);
    for first in [1, 2] {
        let told = (receive(&mut both, 1, &mut answer), answer[0]);
        assert_eq!(rt; told, (14, first));
    }
    assert_eq!(rt;
        receive(&mut both, 1, &mut answer),
        0,
        "the arrivals have ended"
    );
    Ok(())
}

// A frame has 14 to 1514 bytes, all of which have arrived; anything else ends the arrivals.
#[test]
fn lengths(rt: HostRuntime) -> Result<(), Fail> {
    let table = [
        (13, 13, 0),
        (14, 14, 14),
        (14, 13, 0),
        (1514, 1514, 1514),
        (1514, 1515, 1514),
        (1515, 1515, 0),
    ];
    for (length, bytes, taken) in table {
        let mut answer = [0u8; 1514];
        let arrivals = arrival(rt.alloc(), length, bytes, 2)?;
        let frames = count_frames(&arrivals).frames;
        let received = receive(&mut Wire::new(arrivals), 0, &mut answer);
        assert_eq!(rt; (frames, received), (taken.min(1), taken));
    }
    Ok(())
}

// What is sent is counted by frames and by the sum of its bytes.
#[test]
fn sending(rt: HostRuntime) -> Result<(), Fail> {
    let mut wire = Wire::new(Vec::new(rt.alloc()));
    for (bytes, sent, total) in [(13, 0, 0), (14, 1, 42), (1514, 2, 232), (1515, 2, 232)] {
        let mut answer = [0u8; 1514];
        let frame = vec![in rt.alloc(); 3u8; bytes]?;
        let send = at(0, NetworkOp::Send, &frame);
        let counters = at(0, NetworkOp::Counters, &[]);
        let lengths = (
            wire.perform(&send, &mut answer),
            wire.perform(&counters, &mut answer),
        );
        assert_eq!(rt; (lengths, answer[0], answer[4]), ((0, 8), sent, total));
    }
    Ok(())
}

// A run of arrivals, frame by frame: to a group, to one, and then the end.
#[test]
fn runs(rt: HostRuntime) -> Result<(), Fail> {
    let mut arrivals = arrival(rt.alloc(), 14, 14, 1)?;
    arrivals.extend_from_slice(&arrival(rt.alloc(), 16, 16, 2)?)?;
    arrivals.extend_from_slice(&[0, 14, 2])?;
    let parts = split_frame(&arrivals).map(|(frame, rest)| (frame.len(), rest.len()));
    assert_eq!(rt; parts, Some((14, 21)));
    assert_eq!(rt; split_frame(&arrivals[34..]).is_none(), true);
    for (level, moved, length) in [(0, 34, Some(16)), (1, 16, Some(14))] {
        let (far, frame) = next_arrival(level, &arrivals);
        assert_eq!(rt; (far, frame.map(|frame| frame.len())), (moved, length));
    }
    let seen = Survey {
        frames: 2,
        groups: 1,
        used: 34,
    };
    assert_eq!(rt; count_frames(&arrivals), seen);
    // counted in the loop: `count` of a `filter` of frames, which have a lifetime, got no proof
    let mut groups = 0u32;
    for (frame, length) in frames_in(&arrivals).zip([14, 16]) {
        assert_eq!(rt; frame.len(), length);
        if is_group(frame) {
            groups = groups.saturating_add(1);
        }
    }
    assert_eq!(rt; groups, 1);
    let mut singles = frames_in(&arrivals).filter(|frame| !is_group(frame));
    let lone = singles.next().map(|frame| frame.len());
    assert_eq!(rt; (lone, singles.next().is_none()), (Some(16), true));
    Ok(())
}

#[test]
fn class(rt: HostRuntime) {
    assert_eq!(rt;
        (
            Network::initial(1),
            Network::greatest(0),
            Network::greatest(2),
        ),
        (1514, 1, 1000)
    );
    let names = [0xE0000000, 0xDFFFFFFF, 0xEFFFFFFF, 0xF0000000];
    let has = (
        names.map(|name| Network::has_name(name)),
        [1, 2, 3].map(|kind| Network::is_declared(kind)),
    );
    assert_eq!(rt; has, ([true, false, true, false], [false, false, true]));
}
