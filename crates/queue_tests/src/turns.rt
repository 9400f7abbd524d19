// Many adds and removes of mixed sizes, beside a plain list.
use crate::plain::{PlainQueue, header};
use model::Refusal;
use queue::{Head, Queue};
use std::process::Abort;
use std::test::*;

// No class has a longer payload: a frame to send.
const LONGEST: usize = 1514;

// A number that looks random, from the one before it.
fn next(seed: u32) -> u32 {
    seed.wrapping_mul(1664525).wrapping_add(1013904223)
}

// One request into both; the answer says how many bytes were added.
fn add(
    rt: &impl Abort,
    q: &mut Queue,
    plain: &mut PlainQueue,
    seed: u32,
    bytes: &[u8],
) -> Result<usize, Fail> {
    let head = Head {
        header: header(seed % 7, (seed % 3) as u8, seed),
        size: bytes.len(),
        handed: false,
    };
    let expected = plain.verdict(bytes.len());
    assert_eq!(rt; q.push(head.header, bytes), expected);
    if expected.is_err() {
        return Ok(0);
    }
    plain.push(head, bytes)?;
    Ok(bytes.len())
}

#[test]
fn as_a_plain_list(rt: HostRuntime) -> Result<(), Fail> {
    let mut bytes = [0u8; 2 * LONGEST];
    let mut seed = 1;
    for b in bytes.iter_mut() {
        seed = next(seed);
        *b = (seed >> 24) as u8;
    }
    let mut q = Queue::new();
    let mut plain = PlainQueue::new(rt.alloc());
    let mut added = 0usize;
    for _ in 0..3000 {
        seed = next(seed);
        let number = (seed >> 8) as usize;
        let from = number % LONGEST;
        match seed >> 28 {
            0..=7 => {
                let size = (number / LONGEST) % LONGEST;
                let payload = &bytes[from..from + size];
                added = added.saturating_add(add(&rt, &mut q, &mut plain, seed, payload)?);
            }
            8..=12 => {
                q.pop();
                plain.pop();
            }
            13..=14 => {
                q.hand(from % 20);
                plain.hand(from % 20);
            }
            _ => {
                q.unhand_all();
                plain.unhand_all();
            }
        }
        plain.matches(&rt, &q)?;
    }
    assert!(rt; added > 20 * 16384, "the store was gone through too seldom");
    Ok(())
}
