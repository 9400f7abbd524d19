// The limits of a queue, and indexes past its end.
use crate::plain::header;
use model::Refusal;
use queue::{CAPACITY, MOST, Queue};
use std::test::*;

#[test]
fn the_last_byte_fits(rt: HostRuntime) -> Result<(), Fail> {
    let frame = [7; 1514];
    let rest = [8; 623];
    let mut q = Queue::new();
    for tag in 0..5 {
        assert_eq!(rt; q.push(header(tag, 1, 0), &frame), Ok(()));
    }
    let one_byte_more = (q.push(header(5, 1, 0), &rest), q.len());
    assert_eq!(rt; one_byte_more, (Err(Refusal::Room), 5));
    let last_bytes = (q.push(header(5, 1, 0), &rest[0..622]), q.used());
    assert_eq!(rt; last_bytes, (Ok(()), CAPACITY));
    let more = [
        q.push(header(6, 1, 0), &rest[0..1]),
        q.push(header(6, 1, 0), &rest[0..0]),
    ];
    assert_eq!(rt;
        more,
        [Err(Refusal::Room), Ok(())],
        "an empty payload always has room"
    );
    Ok(())
}

#[test]
fn full_comes_before_room(rt: HostRuntime) -> Result<(), Fail> {
    let payload = [1; 512];
    let mut q = Queue::new();
    for tag in 0..15 {
        assert_eq!(rt; q.push(header(tag, 2, tag), &payload), Ok(()));
    }
    let last = [
        q.push(header(15, 2, 0), &[0; 513]),
        q.push(header(15, 2, 0), &payload),
    ];
    assert_eq!(rt; (last, q.len()), ([Err(Refusal::Room), Ok(())], MOST));
    let more = [
        q.push(header(16, 2, 0), &payload),
        q.push(header(16, 2, 0), &[]),
    ];
    assert_eq!(rt; more, [Err(Refusal::Full); 2]);
    q.pop();
    assert_eq!(rt; q.push(header(16, 2, 0), &payload), Ok(()));
    Ok(())
}

#[test]
fn past_the_end(rt: HostRuntime) -> Result<(), Fail> {
    let mut q = Queue::new();
    let front = q.front();
    q.pop();
    q.hand(0);
    assert_eq!(rt; (front, q.len()), (None, 0));
    let one = (q.push(header(9, 3, 5), b"abc"), q.request(1));
    assert_eq!(rt; one, (Ok(()), None));
    assert_eq!(rt; [q.payload(1), q.payload(usize::MAX)], [None; 2]);
    q.hand(1);
    q.hand(usize::MAX);
    assert_eq!(rt; q.unhanded(), 1);
    q.clear();
    assert_eq!(rt; (q.len(), q.used(), q.front()), (0, 0, None));
    Ok(())
}
