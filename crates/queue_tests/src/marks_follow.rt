// Marks stay with their requests.
use crate::plain::header;
use queue::{Head, Queue};
use std::test::*;

#[test]
fn through_pop(rt: HostRuntime) -> Result<(), Fail> {
    let mut q = Queue::new();
    let added = [
        q.push(header(1, 0, 10), b"one"),
        q.push(header(2, 1, 20), b""),
        q.push(header(1, 2, 30), b"three"),
    ];
    assert_eq!(rt;
        (added, q.first_unhanded()),
        ([Ok(()); 3], Some(0)),
        "a tag may come again"
    );
    q.hand(0);
    q.hand(2);
    assert_eq!(rt; (q.first_unhanded(), q.unhanded()), (Some(1), 1));
    q.pop();
    let second = Head {
        header: header(2, 1, 20),
        size: 0,
        handed: false,
    };
    assert_eq!(rt; (q.front(), q.first_unhanded()), (Some(second), Some(0)));
    q.pop();
    let third = Head {
        header: header(1, 2, 30),
        size: 5,
        handed: true,
    };
    let bytes: &[u8] = b"three";
    assert_eq!(rt; (q.front(), q.payload(0)), (Some(third), Some(bytes)));
    assert_eq!(rt; (q.first_unhanded(), q.unhanded()), (None, 0));
    Ok(())
}

#[test]
fn taken_away(rt: HostRuntime) -> Result<(), Fail> {
    let mut q = Queue::new();
    for tag in 0..4 {
        assert_eq!(rt; q.push(header(tag, 0, 0), b"x"), Ok(()));
    }
    for i in 0..3 {
        q.hand(i);
    }
    assert_eq!(rt; q.first_unhanded(), Some(3));
    q.unhand_all();
    let all = (q.first_unhanded(), q.unhanded(), q.used());
    assert_eq!(rt; all, (Some(0), 4, 4));
    Ok(())
}
